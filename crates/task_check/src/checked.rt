//! Problems without faults.
ghost use Rattle.std.specs.Prelude.{◌≡◌};
ghost use Rattle.problem_types.specs.Form.{IsProblemInForm};
ghost use Rattle.task_check.specs.First.{IsAccepted};

use problem_types::Problem;
use std::marker::Model;

/// A problem without faults. Only `check` makes one.
#[derive(Debug, Drop)]
pub struct Checked {
    problem: Problem,
}

impl Model for Checked {
    ghost use Rattle.problem_types.specs.declared.problem.Problem.{Problem};
    ghost use Rattle.problem_types.specs.Form.{IsProblemInForm};
    ghost use Rattle.task_check.specs.First.{IsAccepted};
    ghost use Rattle.kernel_ast.specs.contracts.expression.Expr as expression;
    ghost use Rattle.std.specs.Coded.{codes};

    ghost Value = { Problem };

    ghost coded = { Prim.hlevel (codes, expression.the_row.coded) };

    ghost view = { λ c. c.problem };

    ghost invariant = { λ c. IsProblemInForm c.problem × IsAccepted c.problem };
}

impl Checked {
    /// The problem, known to be without faults.
    pub(crate) fn new(problem: Problem) -> Checked
        requires form { IsProblemInForm problem }
        requires accepted { IsAccepted problem }
        ensures { result ≡ problem }
    {
        Checked { problem }
    }

    /// The problem.
    pub fn problem(&self) -> &Problem
        ensures problem { result.now ≡ self.now }
        ensures form { IsProblemInForm self.now }
        ensures accepted { IsAccepted self.now }
    {
        &self.problem
    }
}
