//! Tests of the plans of small problems.
#![tactic(auto)]

#[cfg(test)]
mod plans;
mod texts;

pub use texts::checked;
