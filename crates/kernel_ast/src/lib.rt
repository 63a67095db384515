//! The expressions of kernels as data.
#![tactic(auto)]

mod copying;
mod expression;
mod form;
mod size;
#[cfg(test)]
mod tests;

pub use copying::{NoMemory, copy};
pub use expression::{Expr, How, Op, Read, Store};
pub use form::in_form;
pub use size::{depth, nodes};
