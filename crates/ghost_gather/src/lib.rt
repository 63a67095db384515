//! Ghost windows: the numbers of a variable around a patch, gathered from the fields of several patches.
#![tactic(auto)]

mod filling;
#[cfg(test)]
mod tests;
mod window;

pub use field_box::NoMemory;
pub use window::Window;
