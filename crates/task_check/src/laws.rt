//! Laws on the first faults of problems, and on what a problem without faults keeps.
ghost use Rattle.problem_types.specs.Form.{IsProblemInForm};
ghost use Rattle.task_check.specs.Bounds.{IsBounded};
ghost use Rattle.task_check.specs.Laws.{ProblemsAreJudged, FirstFaultsAreOne, AcceptedProblemsHaveNone, AcceptedProblemsAreBounded};

use crate::checked::Checked;
use uts_geom::spans_hold_their_indexes;

/// Each problem in form is accepted, or has a first fault.
pub fn problems_are_judged()
    ensures { ProblemsAreJudged }
{
    spans_hold_their_indexes();
}

/// A problem has one first fault at most.
pub fn first_faults_are_one()
    ensures { FirstFaultsAreOne }
{}

/// An accepted problem has no first fault.
pub fn accepted_problems_have_none()
    ensures { AcceptedProblemsHaveNone }
{}

/// An accepted problem keeps the limits, its levels are good, its tasks run on levels and materials that it has, and the names of its
/// lines are declared.
pub fn accepted_problems_are_bounded()
    ensures { AcceptedProblemsAreBounded }
{}

/// What a checked problem keeps: the rules of form, and what `accepted_problems_are_bounded` says of it.
pub fn bounds(c: &Checked)
    ensures form { IsProblemInForm c.now }
    ensures limits { IsBounded c.now }
{
    accepted_problems_are_bounded();
    let _problem = c.problem();
}
