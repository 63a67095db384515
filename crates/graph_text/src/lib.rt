//! The listing of task graphs as text.
#![tactic(auto)]

mod lists;
mod memory;
mod plan;
mod predecessors;
mod putting;
mod slots;
mod tasks;
#[cfg(test)]
mod tests;
mod whole;

pub use memory::NoMemory;
pub use plan::PlanLines;
pub use whole::listing;
