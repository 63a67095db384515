//! Lists of tasks compiled to task graphs. `docs/task-graph.md` states what stands in a graph.
#![tactic(auto)]

mod compiling;
mod details;
mod finals;
mod kept;
mod kinds;
mod laws;
mod layout;
mod old_places;
mod old_reads;
mod old_slots;
mod plan;
mod reads;
mod sources;
mod touched;
mod writes;
mod written;

pub use compiling::compile;
pub use kinds::kind_of;
pub use laws::{
    details_are_of_lists, plans_are_counted, plans_are_valid, slots_are_of_lists, slots_stand_once,
    writes_stand_in_order,
};
pub use plan::{Detail, ListKind, Plan, Slot, SlotKind, StepKind};
