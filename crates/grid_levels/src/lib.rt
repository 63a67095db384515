//! Whether a level of a problem's grid is good: its ratio, and how its box, its patches and the next coarser level lie.
#![tactic(auto)]

mod apart;
mod boxes;
mod level;
mod limits;
mod multiples;
mod spans;
mod tiling;

pub use boxes::divided;
pub use level::{BadGrid, check_level};
pub use limits::{has_near_bounds, is_within_limits, keeps_limits};
