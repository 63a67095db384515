//! The checker.
ghost use Rattle.std.specs.Prelude.{◌≡◌, Err, IfOk, IfSome, IsNone};
ghost use Rattle.problem_types.specs.Form.{IsProblemInForm};
ghost use Rattle.task_check.specs.First.{IsAccepted, IsFirstFault};
ghost use Rattle.task_check.specs.declared.checking.Refusal.TheVariants as refusal;
ghost use Rattle.task_check.specs.declared.fault.Fault.{Fault};

use crate::checked::Checked;
use crate::fault::{Fault, FaultKind};
use crate::lines::lines_fault;
use crate::plan::limits::plan_fault;
use problem_types::Problem;

/// Why there is no checked problem.
#[derive(Clone, Copy, Debug, PartialEq, Eq)]
pub enum Refusal {
    /// The problem has a fault, and this is the first one.
    Fault(Fault),
    NoMemory,
}

/// The first fault of a problem: of its lines, or of its plans on the line of `end`.
fn first_fault(p: &Problem) -> Option<Fault>
    requires { IsProblemInForm p.now }
    ensures fault { IfSome result (λ f. IsFirstFault p.now f.line f.kind) }
    ensures accepted { IsNone result → IsAccepted p.now }
{
    if let Some(fault) = lines_fault(p) {
        return Some(fault);
    }
    match plan_fault(p) {
        Some(which) => Some(Fault {
            line: p.end_line,
            kind: FaultKind::TooLarge(which),
        }),
        None => None,
    }
}

/// The problem, checked, or its first fault. A refused problem is dropped.
pub fn check(problem: Problem) -> Result<Checked, Refusal>
    requires { IsProblemInForm problem }
    ensures accepted { IfOk result (λ c. (c ≡ problem) × IsAccepted problem) }
    ensures fault { (f : Fault) → result ≡ Err (refusal.Fault f) → IsFirstFault problem f.line f.kind }
{
    match first_fault(&problem) {
        Some(fault) => Err(Refusal::Fault(fault)),
        None => Ok(Checked::new(problem)),
    }
}
