//! Kernels that run at each index of a span, row by row. `docs/model.md` states what they compute.
#![tactic(auto)]

mod along;
mod depths;
mod filling;
mod folding;
mod sweep;
#[cfg(test)]
mod tests;

pub use along::fill_row;
pub use depths::deepest_kernel;
pub use field_box::width;
pub use filling::fill_field;
pub use folding::fold_numbers;
pub use sweep::Sweep;
