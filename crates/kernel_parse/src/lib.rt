//! Expressions from tokens.
#![tactic(auto)]

mod fault;
mod laws;
mod lexeme;
mod parse;
mod parser;
mod reads;
mod tokens;
mod tree;

pub use fault::ExprFault;
pub use laws::{expressions_are_judged, few_new_words, one_reading, spelled_in_form};
pub use lexeme::is_reserved;
pub use parse::parse_expr;
pub use tokens::{
    behind_sign, behind_word, split_meaning, split_name, split_number, split_signed, split_store,
};
