//! The statement that a line of a problem text is, from its tokens.
#![tactic(auto)]

mod fault;
mod laws;
mod named;
mod parse;
mod pieces;
mod statement;
mod words;
mod writes;

pub use fault::StatementFault;
pub use laws::{few_new_names, one_statement, statements_are_in_form, statements_are_judged};
pub use parse::parse_statement;
pub use statement::{Corners, Statement, StatementKind};
