//! What the names, the lists and the lines of a problem stand for. `docs/language.md` states the rules.
#![tactic(auto)]

mod declarations;
mod lines;
mod lists;
#[cfg(test)]
mod tests;

pub use declarations::{centring_of, fold_of, outside_of};
pub use lines::{field_write, is_of_field, is_reduces, reduction_write};
pub use lists::{is_dumped, task_list};
