//! Kernels evaluated over what a task sees: windows on variables, and the numbers of reductions.
#![tactic(auto)]

mod evaluating;
mod lookups;
mod numbers;
mod part;
mod reads;
#[cfg(test)]
mod tests;
mod windows;

pub use evaluating::eval;
pub use part::Part;
pub use windows::{Given, Windows};
