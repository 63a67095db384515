//! The faults of `reduction` lines.
ghost use Rattle.task_check.specs.First.{IsFirst};
ghost use Rattle.task_check.specs.Lines.{ReductionFault};
ghost use Rattle.task_check.specs.Parts.{OfReductions};
ghost use Rattle.problem_types.specs.Form.{IsProblemInForm};

use crate::fault::{Fault, FaultKind, Which};
use crate::line::{Line, first_fault};
use crate::slices::{front, item};
use problem_types::{Problem, Reduction};

/// A `reduction` line, at its place among them.
#[derive(Clone, Copy)]
struct ReductionLine<'a> {
    problem: &'a Problem,
    place: usize,
    reduction: Reduction,
}

impl Line for ReductionLine<'_> {
    ghost stands = { λ s. ReductionFault s.problem.now s.place s.reduction };

    fn has(&self, kind: FaultKind) -> bool {
        let name = self.reduction.name;
        let earlier = front(self.problem.reductions.as_slice(), self.place);
        match kind {
            FaultKind::TooLarge(Which::Reductions) => self.place == 16,
            FaultKind::Twice => {
                self.problem.vars.as_slice().iter().any(|v| v.name == name)
                    || earlier.iter().any(|q| q.name == name)
            }
            _ => false,
        }
    }
}

/// The first fault of a `reduction` line.
pub(crate) fn reductions_fault(problem: &Problem) -> Option<Fault>
    requires { IsProblemInForm problem.now }
    ensures { IsFirst (OfReductions problem.now) result }
{
    for place in 0..problem.reductions.len() {
        let reduction = *item(problem.reductions.as_slice(), place);
        let line = ReductionLine {
            problem,
            place,
            reduction,
        };
        if let Some(fault) = first_fault(reduction.line, &line) {
            return Some(fault);
        }
    }
    None
}
