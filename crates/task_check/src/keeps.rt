//! The faults of `keep` lines.
ghost use Rattle.task_check.specs.First.{IsFirst};
ghost use Rattle.task_check.specs.Lines.{KeepFault};
ghost use Rattle.task_check.specs.Parts.{OfKeeps};
ghost use Rattle.problem_types.specs.Form.{IsProblemInForm};

use crate::fault::{Fault, FaultKind};
use crate::line::{Line, first_fault};
use crate::slices::{front, item};
use problem_types::{Keep, Problem};
use task_rules::{is_never_written, is_reduction, is_variable};

/// A `keep` line, at its place among them.
#[derive(Clone, Copy)]
struct KeepLine<'a> {
    problem: &'a Problem,
    place: usize,
    keep: Keep,
}

impl Line for KeepLine<'_> {
    ghost stands = { λ s. KeepFault s.problem.now s.place s.keep };

    fn has(&self, kind: FaultKind) -> bool {
        let (problem, name) = (self.problem, self.keep.name);
        let earlier = front(problem.keeps.as_slice(), self.place);
        match kind {
            FaultKind::Unknown => !(is_variable(problem, name) || is_reduction(problem, name)),
            FaultKind::Twice => earlier.iter().any(|k| k.name == name),
            FaultKind::MissingCompute => {
                is_never_written(problem.init.as_slice(), name)
                    || is_never_written(problem.timestep.as_slice(), name)
            }
            _ => false,
        }
    }
}

/// The first fault of a `keep` line.
pub(crate) fn keeps_fault(problem: &Problem) -> Option<Fault>
    requires { IsProblemInForm problem.now }
    ensures { IsFirst (OfKeeps problem.now) result }
{
    for place in 0..problem.keeps.len() {
        let keep = *item(problem.keeps.as_slice(), place);
        let line = KeepLine {
            problem,
            place,
            keep,
        };
        if let Some(fault) = first_fault(keep.line, &line) {
            return Some(fault);
        }
    }
    None
}
