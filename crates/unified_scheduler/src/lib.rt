//! What runs a task graph: jobs, which compute detailed tasks, and gates before them. The workers themselves are to come.
#![tactic(auto)]

mod gate;
mod job;

pub use gate::{Gate, OpenGate};
pub use job::Job;
