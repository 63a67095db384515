//! How reductions combine numbers. `docs/model.md` states the folds.
#![tactic(auto)]

mod folding;
mod laws;
#[cfg(test)]
mod tests;

pub use folding::{combine, identity};
pub use laws::{order_does_not_matter, parts_fold_apart};
pub use problem_types::Fold;
pub use uts_num::{wadd, wdiv, wmul, wrem, wsub};
