ghost use Rattle.std.specs.Prelude.{◌↔◌, IsTrue, IfOk};
ghost use Rattle.problem_file.specs.Grammar.{IsWellFormed};

use crate::laws::printed_text_is_read;
use problem_printable::{is_printable, spelled_can_be_printed};
use problem_types::{NoMemory, Problem};
use std::alloc::Global;

/// Whether some text spells the problem. It takes memory for the names alone, and for n names compares at most about
/// n log n words.
pub fn well_formed(alloc: Global, p: &Problem) -> Result<bool, NoMemory>
    ensures { IfOk result (λ yes. IsTrue yes ↔ IsWellFormed p.now) }
{
    printed_text_is_read();
    spelled_can_be_printed();
    is_printable(alloc, p)
}
