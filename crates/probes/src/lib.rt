//! What watches a run: each row of its dump in order, and one line at its end.
#![tactic(auto)]

mod numbers;
mod probe;
mod row;
#[cfg(test)]
mod tests;

pub use numbers::Numbers;
pub use probe::{NoMemory, Probe};
pub use row::Row;
