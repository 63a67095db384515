//! Windows on the next coarser and the next finer level, and the fold over the children of an index.
#![tactic(auto)]

mod fine;
mod folds;
mod levels;
#[cfg(test)]
mod tests;

pub use fine::{children, fine_span};
pub use folds::fine_fold;
pub use levels::{coarse_index, coarse_span};
