//! Tests of `run_task`, through `serial_step`: the steps of small problems, run by their detailed tasks on one thread.
#![tactic(auto)]

#[cfg(test)]
mod compared;
#[cfg(test)]
mod firsts;
#[cfg(test)]
mod later;
mod olds;
#[cfg(test)]
mod places;
#[cfg(test)]
mod problems;
#[cfg(test)]
mod runs;
#[cfg(test)]
mod windows;

pub use olds::old_numbers;
