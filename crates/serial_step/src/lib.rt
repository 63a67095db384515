//! A step's graph run on one thread, over any kind of job.
#![tactic(auto)]

mod gathering;
mod order;
mod putting;

pub use order::run_serially;

#[cfg(test)]
mod tests;
