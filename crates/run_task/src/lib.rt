//! One detailed task of a step: from values that fit what it reads it gives values that fit what it writes.
//! `docs/task-graph.md` states what slots hold.
#![tactic(auto)]

mod beginning;
mod gathering;
mod job;
mod parts;
mod patch_kernels;
mod places;
mod pushing;
mod room;
mod running;
mod work;

pub use job::StepJob;
pub use work::{CombiningWork, PatchWork, Site, Work};
