//! Statements from tokens, all but those that write.
ghost use Rattle.std.specs.Prelude.{◌≡◌, All};
ghost use Rattle.kernel_parse.specs.Reading.{Gives};
ghost use Rattle.kernel_parse.specs.Source.{LiesIn, CanRead, Extends, lexemes};
ghost use Rattle.statement_parse.specs.Reading.{stated, unnamed_at, var_at, fold_at, keep_at, task_at, coarse_at, fine_at, own_at, what_at, requirement_at, statement_at};

use crate::fault::StatementFault;
use crate::pieces::{
    at_end, corners, fold_parts, last_list, layered, list, name, number, ratio, some_number,
    var_parts, version,
};
use crate::statement::{Statement, StatementKind};
use crate::words::STATEMENTS;
use kernel_parse::{behind_word, split_meaning, split_name, split_store};
use problem_types::What;
use std::alloc::Global;
use uts_lex::{Names, Token};

/// A statement of this kind without names, behind its first word.
#[tactic(auto, unfolding(crate::specs::Reading::unnamed_at))]
fn unnamed(text: &[u8], kind: StatementKind, tokens: &[Token]) -> Option<Statement>
    requires { All (LiesIn text.now) tokens.now }
    ensures { result ≡ unnamed_at kind (lexemes text.now tokens.now) }
{
    match kind {
        StatementKind::Version => Some(Statement::Version(version(text, tokens)?)),
        StatementKind::Steps => Some(Statement::Steps(number(text, tokens)?)),
        StatementKind::Dump => Some(Statement::Dump(some_number(text, tokens)?)),
        StatementKind::Ghost => Some(Statement::Ghost(number(text, tokens)?)),
        StatementKind::Materials => Some(Statement::Materials(some_number(text, tokens)?)),
        StatementKind::Level => Some(Statement::Level(ratio(text, tokens)?)),
        StatementKind::Box => Some(Statement::Box(corners(text, tokens)?)),
        StatementKind::Patch => Some(Statement::Patch(corners(text, tokens)?)),
        StatementKind::Init => at_end(text, tokens, Statement::Init),
        StatementKind::Timestep => at_end(text, tokens, Statement::Timestep),
        StatementKind::End => at_end(text, tokens, Statement::End),
        _ => None,
    }
}

#[tactic(auto, using(kernel_parse::specs::SourceLaws::kept_words), unfolding(crate::specs::Reading::var_at))]
fn var(text: &[u8], tokens: &[Token], names: &mut Names) -> Result<Statement, StatementFault>
    requires { CanRead text.now names.old tokens.now }
    ensures read { Gives StatementFault.NoMemory (λ s. stated s names.new) result (var_at names.old (lexemes text.now tokens.now)) }
    ensures kept { Extends names.old names.new }
{
    let (name, centring, outside) = var_parts(text, tokens).ok_or(StatementFault::BadStatement)?;
    let name = names.number(name)?;
    Ok(Statement::Var {
        name,
        centring,
        outside,
    })
}

#[tactic(auto, using(kernel_parse::specs::SourceLaws::kept_words), unfolding(crate::specs::Reading::fold_at))]
fn reduction(text: &[u8], tokens: &[Token], names: &mut Names) -> Result<Statement, StatementFault>
    requires { CanRead text.now names.old tokens.now }
    ensures read { Gives StatementFault.NoMemory (λ s. stated s names.new) result (fold_at names.old (lexemes text.now tokens.now)) }
    ensures kept { Extends names.old names.new }
{
    let (name, fold) = fold_parts(text, tokens).ok_or(StatementFault::BadStatement)?;
    let name = names.number(name)?;
    Ok(Statement::Reduction { name, fold })
}

#[tactic(auto, using(kernel_parse::specs::SourceLaws::kept_words), unfolding(crate::specs::Reading::keep_at))]
fn keep(text: &[u8], tokens: &[Token], names: &mut Names) -> Result<Statement, StatementFault>
    requires { CanRead text.now names.old tokens.now }
    ensures read { Gives StatementFault.NoMemory (λ s. stated s names.new) result (keep_at names.old (lexemes text.now tokens.now)) }
    ensures kept { Extends names.old names.new }
{
    let name = name(text, tokens).ok_or(StatementFault::BadStatement)?;
    Ok(Statement::Keep(names.number(name)?))
}

#[tactic(auto, using(kernel_parse::specs::SourceLaws::kept_words), unfolding(crate::specs::Reading::task_at))]
fn task(
    alloc: Global,
    text: &[u8],
    tokens: &[Token],
    names: &mut Names,
) -> Result<Statement, StatementFault>
    requires { CanRead text.now names.old tokens.now }
    ensures read { Gives StatementFault.NoMemory (λ s. stated s names.new) result (task_at names.old (lexemes text.now tokens.now)) }
    ensures kept { Extends names.old names.new }
{
    let (name, rest) = split_name(text, tokens).ok_or(StatementFault::BadStatement)?;
    let rest = behind_word(text, rest, b"levels").ok_or(StatementFault::BadStatement)?;
    let (levels, rest) = list(alloc, text, rest)?;
    let rest = behind_word(text, rest, b"materials").ok_or(StatementFault::BadStatement)?;
    let materials = last_list(alloc, text, rest)?;
    let name = names.number(name)?;
    Ok(Statement::Task {
        name,
        levels,
        materials,
    })
}

/// A variable on the next coarser level.
#[tactic(auto, using(kernel_parse::specs::SourceLaws::kept_words), unfolding(crate::specs::Reading::coarse_at))]
fn coarse(text: &[u8], tokens: &[Token], names: &mut Names) -> Result<What, StatementFault>
    requires { CanRead text.now names.old tokens.now }
    ensures read { Gives StatementFault.NoMemory (λ w. (w, names.new)) result (coarse_at names.old (lexemes text.now tokens.now)) }
    ensures kept { Extends names.old names.new }
{
    let (name, layers) = layered(text, tokens).ok_or(StatementFault::BadStatement)?;
    let var = names.number(name)?;
    Ok(What::Coarse { var, layers })
}

/// A variable on the next finer level.
#[tactic(auto, using(kernel_parse::specs::SourceLaws::kept_words), unfolding(crate::specs::Reading::fine_at))]
fn fine(text: &[u8], tokens: &[Token], names: &mut Names) -> Result<What, StatementFault>
    requires { CanRead text.now names.old tokens.now }
    ensures read { Gives StatementFault.NoMemory (λ w. (w, names.new)) result (fine_at names.old (lexemes text.now tokens.now)) }
    ensures kept { Extends names.old names.new }
{
    let name = name(text, tokens).ok_or(StatementFault::BadStatement)?;
    let var = names.number(name)?;
    Ok(What::Fine { var })
}

/// A reduction, or a variable on the own level.
#[tactic(auto, using(kernel_parse::specs::SourceLaws::kept_words), unfolding(crate::specs::Reading::own_at))]
fn own(text: &[u8], tokens: &[Token], names: &mut Names) -> Result<What, StatementFault>
    requires { CanRead text.now names.old tokens.now }
    ensures read { Gives StatementFault.NoMemory (λ w. (w, names.new)) result (own_at names.old (lexemes text.now tokens.now)) }
    ensures kept { Extends names.old names.new }
{
    if let Some(name) = name(text, tokens) {
        let name = names.number(name)?;
        return Ok(What::Number { name });
    }
    let (name, layers) = layered(text, tokens).ok_or(StatementFault::BadStatement)?;
    let var = names.number(name)?;
    Ok(What::Same { var, layers })
}

#[tactic(auto, unfolding(crate::specs::Reading::what_at))]
fn what(text: &[u8], tokens: &[Token], names: &mut Names) -> Result<What, StatementFault>
    requires { CanRead text.now names.old tokens.now }
    ensures read { Gives StatementFault.NoMemory (λ w. (w, names.new)) result (what_at names.old (lexemes text.now tokens.now)) }
    ensures kept { Extends names.old names.new }
{
    if let Some(rest) = behind_word(text, tokens, b"coarse") {
        return coarse(text, rest, names);
    }
    if let Some(rest) = behind_word(text, tokens, b"fine") {
        return fine(text, rest, names);
    }
    own(text, tokens, names)
}

#[tactic(auto, using(kernel_parse::specs::SourceLaws::kept_words), unfolding(crate::specs::Reading::requirement_at))]
fn requirement(
    text: &[u8],
    tokens: &[Token],
    names: &mut Names,
) -> Result<Statement, StatementFault>
    requires { CanRead text.now names.old tokens.now }
    ensures read { Gives StatementFault.NoMemory (λ s. stated s names.new) result (requirement_at names.old (lexemes text.now tokens.now)) }
    ensures kept { Extends names.old names.new }
{
    let (store, rest) = split_store(text, tokens).ok_or(StatementFault::BadStatement)?;
    let what = what(text, rest, names)?;
    Ok(Statement::Require { store, what })
}

/// A statement that does not write.
#[tactic(auto, using(kernel_parse::specs::SourceLaws::kept_words), unfolding(crate::specs::Reading::statement_at, crate::specs::Reading::said_at))]
pub(crate) fn statement(
    alloc: Global,
    text: &[u8],
    tokens: &[Token],
    names: &mut Names,
) -> Result<Statement, StatementFault>
    requires { CanRead text.now names.old tokens.now }
    ensures read { Gives StatementFault.NoMemory (λ s. stated s names.new) result (statement_at names.old (lexemes text.now tokens.now)) }
    ensures kept { Extends names.old names.new }
{
    let (kind, rest) = split_meaning(text, tokens, &STATEMENTS).ok_or(
        StatementFault::BadStatement,
    )?;
    match kind {
        StatementKind::Var => var(text, rest, names),
        StatementKind::Reduction => reduction(text, rest, names),
        StatementKind::Task => task(alloc, text, rest, names),
        StatementKind::Require => requirement(text, rest, names),
        StatementKind::Keep => keep(text, rest, names),
        _ => unnamed(text, kind, rest).ok_or(StatementFault::BadStatement),
    }
}
