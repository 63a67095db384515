//! The first fault on the lines of a problem.
ghost use Rattle.std.specs.Prelude.{◌≤◌};
ghost use Rattle.task_check.specs.First.{IsFirst};
ghost use Rattle.task_check.specs.Faults.{HasFault};
ghost use Rattle.task_check.specs.Parts.{OfGrid, OfLists};
ghost use Rattle.problem_types.specs.Form.{IsProblemInForm};

use crate::fault::Fault;
use crate::keeps::keeps_fault;
use crate::levels::levels_fault;
use crate::numbers::numbers_fault;
use crate::reductions::reductions_fault;
use crate::tasks::tasks_fault;
use crate::variables::variables_fault;
use problem_types::Problem;

/// The first fault of the numbers before the levels, and of the levels.
fn grid_fault(p: &Problem) -> Option<Fault>
    requires { IsProblemInForm p.now }
    ensures { IsFirst (OfGrid p.now) result }
{
    if let Some(fault) = numbers_fault(p) {
        return Some(fault);
    }
    levels_fault(p)
}

/// The first fault of the tasks of both lists and of what is kept.
fn lists_fault(p: &Problem) -> Option<Fault>
    requires form { IsProblemInForm p.now }
    requires few { p.now.ghost_limit.value ≤ 8 }
    ensures { IsFirst (OfLists p.now) result }
{
    if let Some(fault) = tasks_fault(p, 0) {
        return Some(fault);
    }
    if let Some(fault) = tasks_fault(p, 1) {
        return Some(fault);
    }
    keeps_fault(p)
}

/// The first fault on the lines of a problem.
pub(crate) fn lines_fault(p: &Problem) -> Option<Fault>
    requires { IsProblemInForm p.now }
    ensures { IsFirst (HasFault p.now) result }
{
    if let Some(fault) = grid_fault(p) {
        return Some(fault);
    }
    if let Some(fault) = variables_fault(p) {
        return Some(fault);
    }
    if let Some(fault) = reductions_fault(p) {
        return Some(fault);
    }
    lists_fault(p)
}
