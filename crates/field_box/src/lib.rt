//! Fields: a number for each index of a span of the grid. The order is that of `offset_in`: x goes fastest, then y, then z.
#![tactic(auto)]

mod field;
mod parts;
#[cfg(test)]
mod tests;
mod value;

pub use field::{Field, NoMemory};
pub use parts::width;
pub use value::Value;
