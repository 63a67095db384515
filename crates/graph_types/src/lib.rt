//! Task graphs as plain numbers, and which of them are valid. `docs/task-graph.md` states the rules.
#![tactic(auto)]

mod graph;
mod links;
mod lists;
mod memory;
mod order;
mod owners;
mod slots;
mod tables;
mod uses;
mod validity;
mod wants;

pub use graph::Graph;
pub use links::linked;
pub use memory::NoMemory;
pub use validity::valid;
pub use wants::Wants;
