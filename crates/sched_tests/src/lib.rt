//! Tests of task graphs and of the scheduler's core: graphs drawn by hand, and runs worked by hand, step by step. They stand in a crate
//! of their own, so that what they test is proved once.
#![tactic(auto)]

#[cfg(test)]
mod aborted;
#[cfg(test)]
mod diamond;
#[cfg(test)]
mod graphs;
#[cfg(test)]
mod refused;
#[cfg(test)]
mod runs;
#[cfg(test)]
mod steps;
#[cfg(test)]
mod validity;
#[cfg(test)]
mod wants;
#[cfg(test)]
mod words;
