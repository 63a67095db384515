//! The checker: a problem without faults, or the first fault. `docs/language.md` has the faults.
#![tactic(auto)]

mod checked;
mod checking;
mod fault;
mod keeps;
mod kinds;
mod laws;
mod levels;
mod line;
mod lines;
mod numbers;
mod plan;
mod reductions;
mod requirements;
mod slices;
mod supplies;
mod tasks;
mod variables;
mod writes;

pub use checked::Checked;
pub use checking::{Refusal, check};
pub use fault::{Fault, FaultKind, Which};
pub use laws::{
    accepted_problems_are_bounded, accepted_problems_have_none, bounds, first_faults_are_one,
    problems_are_judged,
};
pub use plan::details::reduces_count;
pub use plan::old_reads::{is_number_read, read_patches};
pub use plan::reach::Reach;
pub use plan::reads::reach_of;
pub use plan::touches::reached_level;
pub use plan::windows::{level_at, reach_window, wanted_level, wanted_window};
pub use supplies::{kernel_centring, seen_of};
