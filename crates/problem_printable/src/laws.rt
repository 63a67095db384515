//! What can be printed, as the contract of a function that does nothing.
ghost use Rattle.problem_printable.specs.Laws.{SpelledCanBePrinted};

/// A problem that some text spells can be printed.
pub fn spelled_can_be_printed()
    ensures { SpelledCanBePrinted }
{
    kernel_parse::spelled_in_form();
    uts_lex::token_is_the_longest();
}
