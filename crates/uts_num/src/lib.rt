//! Whole numbers of 64 bits: arithmetic that wraps, and decimal text.
#![tactic(auto)]

mod arithmetic;
mod decimal;
#[cfg(test)]
mod tests;

pub use arithmetic::{wadd, wdiv, wmul, wrem, wsub};
pub use decimal::{NoMemory, put_i64, read_u64};
