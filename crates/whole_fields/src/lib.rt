//! Warehouses of whole fields: the numbers of each variable over the whole index space of a level.
//! `docs/model.md` states what they hold, and what a kernel sees of them.
#![tactic(auto)]

mod coarse;
mod fine;
mod shapes;
mod stores;
mod views;
mod warehouse;

pub use problem_types::NoMemory;
pub use shapes::{Shape, Shapes};
pub use stores::Stores;
pub use warehouse::Warehouse;
