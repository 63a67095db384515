//! Runs a problem on one thread, over whole fields. `docs/model.md` states what it computes, and its dump.
#![tactic(auto)]

mod fields;
mod kernels;
mod moment;
mod numbers;
mod places;
mod plan;
mod putting;
mod reducing;
mod run;
mod showing;
mod shown;
mod step;
mod sweeping;
mod tasks;
mod written;

pub use dump_text::RunFault;
pub use run::run_plain;
