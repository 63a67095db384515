//! The faults of `var` lines.
ghost use Rattle.task_check.specs.First.{IsFirst};
ghost use Rattle.task_check.specs.Lines.{VariableFault};
ghost use Rattle.task_check.specs.Parts.{OfVariables};
ghost use Rattle.problem_types.specs.Form.{IsProblemInForm};

use crate::fault::{Fault, FaultKind, Which};
use crate::line::{Line, first_fault};
use crate::slices::{front, item};
use problem_types::{Problem, Var};

/// A `var` line, at its place among them.
#[derive(Clone, Copy)]
struct VariableLine<'a> {
    problem: &'a Problem,
    place: usize,
    variable: Var,
}

impl Line for VariableLine<'_> {
    ghost stands = { λ s. VariableFault s.problem.now s.place s.variable };

    fn has(&self, kind: FaultKind) -> bool {
        let earlier = front(self.problem.vars.as_slice(), self.place);
        match kind {
            FaultKind::TooLarge(Which::Variables) => self.place == 64,
            FaultKind::Twice => earlier.iter().any(|v| v.name == self.variable.name),
            _ => false,
        }
    }
}

/// The first fault of a `var` line.
pub(crate) fn variables_fault(problem: &Problem) -> Option<Fault>
    requires { IsProblemInForm problem.now }
    ensures { IsFirst (OfVariables problem.now) result }
{
    for place in 0..problem.vars.len() {
        let variable = *item(problem.vars.as_slice(), place);
        let line = VariableLine {
            problem,
            place,
            variable,
        };
        if let Some(fault) = first_fault(variable.line, &line) {
            return Some(fault);
        }
    }
    None
}
