//! How large the plan of a list of tasks is.
mod columns;
pub(crate) mod details;
mod gathered;
mod kept;
pub(crate) mod limits;
pub(crate) mod old_reads;
mod old_slots;
pub(crate) mod reach;
pub(crate) mod reads;
mod slots;
mod tally;
pub(crate) mod touches;
pub(crate) mod windows;
