//! What holds of the answers, as the contract of a function that does nothing.
ghost use Rattle.uts.specs.Laws.{OneAnswer};

use problem_file::{
    every_text_is_judged, no_problem_with_a_bad_line, one_bad_line, one_problem,
    problems_are_in_form,
};
use task_check::{accepted_problems_have_none, first_faults_are_one, problems_are_judged};

/// There is one answer, and no two, to each words and text.
pub fn one_answer()
    ensures { OneAnswer }
{
    one_problem();
    one_bad_line();
    no_problem_with_a_bad_line();
    every_text_is_judged();
    problems_are_in_form();
    problems_are_judged();
    first_faults_are_one();
    accepted_problems_have_none();
}
