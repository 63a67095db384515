//! What the patches of a level own, and which patches a span touches. `docs/grid.md` states the rules.
#![tactic(auto)]

mod laws;
mod lines;
mod owners;
mod ownership;
#[cfg(test)]
mod tests;
mod touches;

pub use laws::owned_spans_tile;
pub use lines::{index_space, patch_box, patch_count, patch_line};
pub use owners::owner;
pub use ownership::owned;
pub use problem_types::NoMemory;
pub use touches::touching;
