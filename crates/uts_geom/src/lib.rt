//! Indexes of the grid, half-open spans of them, and centrings. `docs/grid.md` states their rules.
#![tactic(auto)]

mod centring;
mod index;
mod laws;
mod row_walk;
mod sizes;
mod span;
#[cfg(test)]
mod tests;
mod walks;

pub use centring::{Axis, Centring, point_like};
pub use index::Index;
pub use laws::{indexes_stand_once, spans_hold_their_indexes, spans_meet_in_indexes};
pub use row_walk::Rows;
pub use sizes::{offset_in, volume};
pub use span::{Span, contains, do_meet, meet};
pub use walks::rows;
