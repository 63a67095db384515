//! Ghost windows, and the offsets at which kernels may read in them. `docs/grid.md` has both tables.
#![tactic(auto)]

mod along;
mod laws;
mod offsets;
mod seen;
#[cfg(test)]
mod tests;
mod windows;

pub use along::Along;
pub use laws::offsets_fit_windows;
pub use offsets::offset_allowed;
pub use seen::Seen;
pub use windows::window;
