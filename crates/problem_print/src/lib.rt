//! Problems printed as text, and which problems some text spells.
#![tactic(auto)]

mod expression;
mod form;
mod laws;
mod page;
mod printing;
mod putting;
mod statements;
#[cfg(test)]
mod tests;
mod words;

pub use form::well_formed;
pub use laws::printed_text_is_read;
pub use printing::print;
