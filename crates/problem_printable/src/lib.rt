//! Which problems can be printed as text.
#![tactic(auto)]

mod expressions;
mod form;
mod laws;
mod names;
mod numbering;
mod numbers;
mod progress;
mod whole;

pub use form::is_printable;
pub use laws::spelled_can_be_printed;
