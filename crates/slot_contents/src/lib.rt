//! What each slot of a step has to hold, by the tasks in their order on whole levels, and why detailed tasks give it.
//! `docs/task-graph.md` states what slots hold.
#![tactic(auto)]

mod laws;

pub use laws::{
    kernels_make_fields, numbers_are_read, numbers_hold_what_stood, outside_stands_outside,
    parts_make_reductions, slots_hold_what_stood, windows_are_covered,
};
