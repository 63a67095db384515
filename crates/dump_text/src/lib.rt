//! The dump of a run as text, from any supplier of rows, past probes. `docs/model.md` states its lines.
#![tactic(auto)]

mod buffers;
mod ends;
mod fault;
mod field;
mod keep;
mod laws;
mod lines;
mod noting;
mod place;
mod rows;
mod step;

pub use ends::{dump_begin, dump_end};
pub use fault::RunFault;
pub use laws::probes_see_the_dump;
pub use probes::NoMemory;
pub use rows::Rows;
pub use step::dump_step;
