//! The core of the scheduler as plain data: what its words and views are, and what each atomic step by a seat does to them.
//! `docs/scheduler.md` states the steps and the invariant.
#![tactic(auto)]

mod act;
mod ends;
mod event;
mod following;
mod laws;
mod slots;
mod start;
mod state;
mod step;
mod tickets;
mod view;

pub use act::{Act, act_at};
pub use ends::{all_gone_is_done, done_leaves_the_kept, drawn_is_done};
pub use event::{Event, Kind};
pub use laws::{each_kind_keeps_sound, reached_are_sound, steps_keep_sound};
pub use start::NoMemory;
pub use state::Core;
pub use view::{Doing, Due, View};
