//! The rules for the lines of a task: which names they may have, and what has to be computed before. `docs/language.md` has the faults.
#![tactic(auto)]

mod computed;
mod levels;
mod lines;
mod modifies;
mod names;
mod neighbours;
mod reads;

pub use computed::{
    computes, is_computed_beside, is_computed_only_later, is_lacking, is_left_out,
    is_never_written, runs_on,
};
pub use levels::wants_missing_level;
pub use lines::{has_computes, has_modifies, has_reduces, reduces, wanted_name};
pub use modifies::is_read_while_modified;
pub use names::{are_names_known, is_known, is_reduction, is_repeated, is_variable};
pub use reads::{ReadRule, allows_all};
