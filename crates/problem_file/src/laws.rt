//! What holds of the grammar, each law as the contract of a function that does nothing.
ghost use Rattle.problem_file.specs.Laws.{OneProblem, OneBadLine, NoProblemWithABadLine, EveryTextIsJudged, ProblemsAreInForm, WholeProblemsAreInOrder};

use statement_parse::{
    few_new_names, one_statement, statements_are_in_form, statements_are_judged,
};

/// A text spells one problem at most.
pub fn one_problem()
    ensures { OneProblem }
{
    one_statement();
    few_new_names();
}

/// A text has one first bad line at most.
pub fn one_bad_line()
    ensures { OneBadLine }
{
    one_statement();
    few_new_names();
}

/// A text with a bad line spells no problem.
pub fn no_problem_with_a_bad_line()
    ensures { NoProblemWithABadLine }
{
    one_statement();
    few_new_names();
}

/// A text spells a problem, or it has a first bad line.
pub fn every_text_is_judged()
    ensures { EveryTextIsJudged }
{
    one_statement();
    few_new_names();
    statements_are_judged();
}

/// A problem that a text shorter than 2^31 bytes spells is in form.
pub fn problems_are_in_form()
    ensures { ProblemsAreInForm }
{
    few_new_names();
    statements_are_in_form();
}

/// Each statement of a whole problem may come at its place.
#[tactic(auto, using(crate::proofs::Readback::whole_in_order))]
pub fn whole_problems_are_in_order()
    ensures { WholeProblemsAreInOrder }
{}
