//! What a printed text spells, as the contract of a function that does nothing.
ghost use Rattle.problem_print.specs.Laws.{PrintedTextIsRead};

use problem_file::whole_problems_are_in_order;
use uts_lex::token_is_read_again;

/// The printed text of a problem that can be printed spells it.
pub fn printed_text_is_read()
    ensures { PrintedTextIsRead }
{
    token_is_read_again();
    whole_problems_are_in_order();
}
