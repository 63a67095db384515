//! What a problem means: its numbers by evaluation in declared order on whole levels, and its dump. `docs/model.md`
//! states it.
#![tactic(auto)]

mod grid;
mod levels;
mod lookups;
mod moments;
mod numbers;
mod operations;
mod witness;

pub use levels::{ratio_on, space_on};
pub use task_check::Checked;
pub use witness::{at_index, reduction_at_end};
