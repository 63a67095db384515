//! Which problems can be printed.
ghost use Rattle.std.specs.Prelude.{◌≡◌, ◌↔◌, IsTrue, IfOk, Some};
ghost use Rattle.std.specs.List.{flat_map};
ghost use Rattle.problem_file.specs.Statements.{statements_of};
ghost use Rattle.problem_printable.specs.Numbering.{known_behind, statement_names};
ghost use Rattle.problem_printable.specs.Printable.{AreInOrder, IsPrintable};

use crate::names::are_names;
use crate::numbers::are_statements_sayable;
use crate::progress::progress_of;
use crate::whole::is_whole;
use problem_types::{NoMemory, Problem};
use std::alloc::Global;

// Whether the lines ascend, and so many names are numbered as they appear.
fn is_in_order(p: &Problem, names: usize) -> bool
    ensures { IsTrue result ↔ (AreInOrder (statements_of p.now)
        × (known_behind 0 (flat_map (λ s. statement_names s.statement) (statements_of p.now)) ≡ Some names)) }
{
    match progress_of(p) {
        Some(last) => last.known == names,
        None => false,
    }
}

/// Whether the problem can be printed: its parts are there, its lines ascend from 1 on, each name is a word that may
/// be one and is numbered where it first appears, and each statement can be spelled. It takes memory to see that no
/// two names are the same: for n names it compares at most about n log n words.
pub fn is_printable(alloc: Global, p: &Problem) -> Result<bool, NoMemory>
    ensures { IfOk result (λ yes. IsTrue yes ↔ IsPrintable p.now) }
{
    // The statements come before their names, since what walks down an expression for its names has no limit of its own.
    let is_said = is_whole(p)
        && are_statements_sayable(p, p.names.len())
        && is_in_order(p, p.names.len());
    if !is_said {
        return Ok(false);
    }
    are_names(alloc, p.names.as_slice())
}
