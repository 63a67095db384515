//! What holds of the grammar, each law as the contract of a function that does nothing.
ghost use Rattle.statement_parse.specs.Laws.{OneStatement, FewNewNames, StatementsAreInForm, StatementsAreJudged};

use kernel_parse::{expressions_are_judged, few_new_words, one_reading, spelled_in_form};

/// Tokens are one statement at most, and name the same words.
pub fn one_statement()
    ensures { OneStatement }
{
    one_reading();
}

/// The words before a statement stay, and it names no more new ones than it has tokens.
pub fn few_new_names()
    ensures { FewNewNames }
{
    few_new_words();
}

/// A statement of fewer than 2^31 tokens is in form, over each number of names from those then named on.
pub fn statements_are_in_form()
    ensures { StatementsAreInForm }
{
    spelled_in_form();
    few_new_words();
}

/// Tokens are some statement, or they are none.
pub fn statements_are_judged()
    ensures { StatementsAreJudged }
{
    expressions_are_judged();
}
