ghost use Rattle.std.specs.Prelude.{◌≡◌, ◌⊎◌, ◌+◌, ◌-◌, ◌<◌, ◌≤◌, ◌^◌, ℕ, length, suc, All, IfOk, IfErr, OnOk, Ok, Err, None, Some};
ghost use Rattle.uts_lex.specs.Lines.{after_line};
ghost use Rattle.kernel_parse.specs.Grammar.{Words};
ghost use Rattle.kernel_parse.specs.Source.{LiesIn, lexemes};
ghost use Rattle.problem_types.specs.Form.{IsProblemInForm};
ghost use Rattle.problem_types.specs.declared.problem.Problem.{Problem};
ghost use Rattle.statement_parse.specs.Grammar.{SpellsStatement};
ghost use Rattle.statement_parse.specs.Kinds.{kind_of};
ghost use Rattle.statement_parse.specs.declared.statement.Statement.{Statement};
ghost use Rattle.problem_file.specs.Statements.{at};
ghost use Rattle.problem_file.specs.Order.{next_place};
ghost use Rattle.problem_file.specs.Drafts.{drafted};
ghost use Rattle.problem_file.specs.Grammar.{Spells, IsBadLine};
ghost use Rattle.problem_file.specs.Progress.{IsReadTo, Blames};

use crate::draft::{Draft, add, empty_problem, list_of};
use crate::fault::ParseFault;
use crate::laws::{
    every_text_is_judged, no_problem_with_a_bad_line, one_bad_line, one_problem,
    problems_are_in_form,
};
use crate::order::Place;
use problem_types::{Name, NoMemory, Problem};
use sqlite_items::Items;
use statement_parse::{StatementFault, few_new_names, one_statement, parse_statement};
use std::alloc::Global;
use uts_lex::{LexFault, Names, Token, lex_line};

/// Adds the statement of a line to the draft.
fn read_statement(
    alloc: Global,
    text: &[u8],
    line: u32,
    tokens: &[Token],
    names: &mut Names,
    draft: &mut Draft,
) -> Result<(), ParseFault>
    requires inside { All (LiesIn text.now) tokens.now }
    requires few { length names.old + length tokens.now < 2 ^ 31 }
    ensures said { OnOk result ((s : Statement) × SpellsStatement (lexemes text.now tokens.now) names.old s names.new
        × (drafted draft.old (at line s) ≡ Some draft.new)) }
    ensures unsaid { IfErr result (Blames (λ bad. (bad ≡ line) × ((s : Statement) (after : Words)
        → SpellsStatement (lexemes text.now tokens.now) names.old s after → next_place draft.old.place (kind_of s) ≡ None))) }
{
    one_statement();
    let statement = match parse_statement(alloc, text, tokens, names) {
        Ok(statement) => statement,
        Err(StatementFault::BadStatement) => return Err(ParseFault::BadText { line }),
        Err(StatementFault::NoMemory) => return Err(ParseFault::NoMemory),
    };
    let Some(place) = draft.place.next(statement.kind()) else {
        return Err(ParseFault::BadText { line });
    };
    let list = list_of(draft.place);
    add(alloc, &mut draft.problem, list, line, statement)?;
    draft.place = place;
    Ok(())
}

/// Reads the line that begins at `start`, and gives the place behind it.
fn read_line(
    alloc: Global,
    text: &[u8],
    start: usize,
    line: u32,
    names: &mut Names,
    draft: &mut Draft,
) -> Result<usize, ParseFault>
    requires short { length text.now < 2 ^ 31 }
    requires inside { start < length text.now }
    requires read { IsReadTo text.now start (line - 1) names.old draft.old }
    requires from_one { 1 ≤ line }
    ensures read { IfOk result (λ next. IsReadTo text.now next line names.new draft.new) }
    ensures further { IfOk result (λ next. start < next) }
    ensures bad_text { IfErr result (Blames (IsBadLine text.now)) }
{
    few_new_names();
    let mut tokens = Vec::new(alloc);
    let next = match lex_line(text, start, line, &mut tokens) {
        Ok(next) => next,
        Err(LexFault::BadByte) => return Err(ParseFault::BadText { line }),
        Err(LexFault::NoMemory) => return Err(ParseFault::NoMemory),
    };
    let tokens = tokens.as_slice();
    if tokens.is_empty() {
        return Ok(next);
    }
    read_statement(alloc, text, line, tokens, names, draft)?;
    Ok(next)
}

/// The names as a list.
fn listed(alloc: Global, names: &Names) -> Result<Items<Name>, NoMemory>
    requires { length names.now < 2 ^ 31 }
    ensures { IfOk result (λ list. list ≡ names.now) }
{
    let mut list = Items::new(alloc);
    for number in 0..names.len() as u32 {
        let Some(word) = names.get(number) else {
            return Ok(list);
        };
        list.push(Name::new(alloc, word)?)?;
    }
    Ok(list)
}

/// The problem of a text that was read to its end, behind so many lines.
fn finish(
    alloc: Global,
    text: &[u8],
    lines: u32,
    names: &Names,
    draft: Draft,
) -> Result<Problem, ParseFault>
    requires short { length text.now < 2 ^ 31 }
    requires read { IsReadTo text.now (length text.now) lines names.now draft }
    ensures found { IfOk result (λ p. Spells text.now p) }
    ensures bad_text { IfErr result (Blames (IsBadLine text.now)) }
{
    if !draft.place.is_end() {
        return Err(ParseFault::BadText { line: lines + 1 });
    }
    let names = listed(alloc, names)?;
    let mut problem = draft.problem;
    problem.names = names;
    Ok(problem)
}

/// Reads the text line by line.
fn read_all(alloc: Global, text: &[u8]) -> Result<Problem, ParseFault>
    requires { length text.now < 2 ^ 31 }
    ensures found { IfOk result (λ p. Spells text.now p) }
    ensures bad_text { IfErr result (Blames (IsBadLine text.now)) }
{
    let mut names = Names::new(alloc);
    let mut draft = Draft {
        place: Place::Start,
        problem: empty_problem(alloc),
    };
    let mut start = 0;
    let mut lines = 0;
    while start < text.len() {
        start = read_line(alloc, text, start, lines + 1, &mut names, &mut draft)?;
        lines += 1;
    }
    finish(alloc, text, lines, &names, draft)
}

/// The problem that the text spells, or the first bad line of the text. `docs/language.md` has the language.
pub fn parse(alloc: Global, text: &[u8]) -> Result<Problem, ParseFault>
    requires { length text.now < 2 ^ 31 }
    ensures found { IfOk result (λ p. Spells text.now p) }
    ensures found_only { (p : Problem) → Spells text.now p → (result ≡ Ok p) ⊎ (result ≡ Err ParseFault.NoMemory) }
    ensures in_form { IfOk result IsProblemInForm }
    ensures bad_text { (line : ℕ) → result ≡ Err (ParseFault.BadText line) → IsBadLine text.now line }
    ensures bad_text_only { (line : ℕ) → IsBadLine text.now line
        → (result ≡ Err (ParseFault.BadText line)) ⊎ (result ≡ Err ParseFault.NoMemory) }
    ensures one_answer { ((p : Problem) × Spells text.now p × ((result ≡ Ok p) ⊎ (result ≡ Err ParseFault.NoMemory)))
        ⊎ ((line : ℕ) × IsBadLine text.now line × ((result ≡ Err (ParseFault.BadText line)) ⊎ (result ≡ Err ParseFault.NoMemory))) }
{
    every_text_is_judged();
    one_problem();
    one_bad_line();
    no_problem_with_a_bad_line();
    problems_are_in_form();
    read_all(alloc, text)
}
