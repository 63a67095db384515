//! Tests of the checker and of what it stands on: examples worked by hand, through the public calls alone. They stand in a crate of their
//! own, so that what they test is proved once.
#![tactic(auto)]

#[cfg(test)]
mod checking;
#[cfg(test)]
mod computed;
#[cfg(test)]
mod form;
#[cfg(test)]
mod levels;
#[cfg(test)]
mod names;
#[cfg(test)]
mod orders;
