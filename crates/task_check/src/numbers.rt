//! The faults of the lines before the levels.
ghost use Rattle.task_check.specs.First.{IsFirst};
ghost use Rattle.task_check.specs.Parts.{OnNumber, OfNumbers};
ghost use Rattle.problem_types.specs.Form.{IsProblemInForm};

use crate::fault::{Fault, FaultKind, Which};
use problem_types::{Num, Problem};

/// The fault of a number above its limit.
fn number_fault(n: Num, most: u64, which: Which) -> Option<Fault>
    ensures { IsFirst (OnNumber n most which) result }
{
    if n.value <= most {
        return None;
    }
    Some(Fault {
        line: n.line,
        kind: FaultKind::TooLarge(which),
    })
}

/// The first fault before the levels.
pub(crate) fn numbers_fault(p: &Problem) -> Option<Fault>
    requires { IsProblemInForm p.now }
    ensures { IsFirst (OfNumbers p.now) result }
{
    let steps = number_fault(p.steps, 65_535, Which::Steps);
    let dump = number_fault(p.dump, 65_535, Which::Dump);
    let ghost_limit = number_fault(p.ghost_limit, 8, Which::Ghost);
    let materials = number_fault(p.materials, 8, Which::Materials);
    steps.or(dump.or(ghost_limit.or(materials)))
}
