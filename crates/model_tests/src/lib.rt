//! Tests of the model and of what computes it: examples worked by hand, through the public calls alone. They stand in a crate of their
//! own, so that what they test is proved once.
#![tactic(auto)]

#[cfg(test)]
mod drafts;
#[cfg(test)]
mod dumps;
#[cfg(test)]
mod fields;
#[cfg(test)]
mod marks;
#[cfg(test)]
mod runs;
#[cfg(test)]
mod witness;
#[cfg(test)]
mod worked;
