//! Kernels evaluated a row of indexes at a time. `docs/model.md` states the arithmetic, and what a kernel sees.
#![tactic(auto)]

mod kernels;
mod loops;
mod operations;
mod reads;
mod row;
#[cfg(test)]
mod tests;

pub use kernels::{evaluate, scratch_places};
pub use reads::Reads;
pub use row::KernelRow;
