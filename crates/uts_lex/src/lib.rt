//! The tokens of a line, and names numbered in the order of their first appearance.
#![tactic(auto)]

mod front;
mod laws;
mod line;
mod names;
#[cfg(test)]
mod tests;
mod token;

pub use laws::{no_byte_is_lost, token_is_read_again, token_is_the_longest};
pub use line::lex_line;
pub use names::Names;
pub use token::{Kind, LexFault, NoMemory, Token};
