//! Tests of the crates that read problem texts: examples worked by hand, through the public calls alone. They stand in a crate of their
//! own, so that what they test is proved once.
#![tactic(auto)]

#[cfg(test)]
mod expressions;
#[cfg(test)]
mod pieces;
#[cfg(test)]
mod printable;
#[cfg(test)]
mod problems;
#[cfg(test)]
mod statements;
