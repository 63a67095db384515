//! Numbers, names and layers, as pieces of a statement.
ghost use Rattle.std.specs.Prelude.{◌≡◌, [], All, IfOk, IfSome, Err};
ghost use Rattle.std.specs.Option.{option_map};
ghost use Rattle.kernel_parse.specs.Reading.{Gives, if_empty};
ghost use Rattle.kernel_parse.specs.Source.{LiesIn, IsBehind, lexemes};
ghost use Rattle.statement_parse.specs.Reading.{number_at, some_number_at, version_at, ratio_at, corner_at, corners_at, is_list, numbers_from, list_at, last_list_at, name_at, var_parts_at, fold_parts_at, layers_at, layered_at};

use crate::fault::StatementFault;
use crate::statement::Corners;
use crate::words::{CENTRINGS, FOLDS, GHOSTS};
use kernel_parse::{behind_word, split_meaning, split_name, split_number, split_signed};
use problem_types::{Centring, Fold, Ghost, GhostKind, is_ascending};
use sqlite_items::Items;
use std::alloc::Global;
use uts_lex::Token;

/// The value, where no token is left.
pub(crate) fn at_end<T: Drop>(text: &[u8], rest: &[Token], value: T) -> Option<T>
    ensures { result ≡ if_empty (lexemes text.now rest.now) value }
{
    if rest.is_empty() { Some(value) } else { None }
}

/// A number, and nothing behind it.
#[tactic(auto, unfolding(crate::specs::Reading::number_at))]
pub(crate) fn number(text: &[u8], tokens: &[Token]) -> Option<u64>
    requires { All (LiesIn text.now) tokens.now }
    ensures { result ≡ number_at (lexemes text.now tokens.now) }
{
    let (n, rest) = split_number(text, tokens)?;
    at_end(text, rest, n)
}

/// A number of at least 1, and nothing behind it.
#[tactic(auto, unfolding(crate::specs::Reading::some_number_at))]
pub(crate) fn some_number(text: &[u8], tokens: &[Token]) -> Option<u64>
    requires { All (LiesIn text.now) tokens.now }
    ensures { result ≡ some_number_at (lexemes text.now tokens.now) }
{
    let n = number(text, tokens)?;
    if n >= 1 { Some(n) } else { None }
}

/// The version of the language, and nothing behind it.
#[tactic(auto, unfolding(crate::specs::Reading::version_at))]
pub(crate) fn version(text: &[u8], tokens: &[Token]) -> Option<u64>
    requires { All (LiesIn text.now) tokens.now }
    ensures { result ≡ version_at (lexemes text.now tokens.now) }
{
    let n = number(text, tokens)?;
    if n == 1 { Some(n) } else { None }
}

/// The refinement ratio of a level, and nothing behind it.
#[tactic(auto, unfolding(crate::specs::Reading::ratio_at))]
pub(crate) fn ratio(text: &[u8], tokens: &[Token]) -> Option<u64>
    requires { All (LiesIn text.now) tokens.now }
    ensures { result ≡ ratio_at (lexemes text.now tokens.now) }
{
    number(text, behind_word(text, tokens, b"ratio")?)
}

#[tactic(auto, using(kernel_parse::specs::SourceLaws::IsBehind_trans), unfolding(crate::specs::Reading::corner_at))]
fn corner<'a>(text: &[u8], tokens: &'a [Token]) -> Option<([u64; 3], &'a [Token])>
    requires { All (LiesIn text.now) tokens.now }
    ensures read { option_map (λ r. (r.0, lexemes text.now r.1.now)) result ≡ corner_at (lexemes text.now tokens.now) }
    ensures rest { IfSome result (λ r. IsBehind text.now tokens.now r.1.now) }
{
    let (x, rest) = split_number(text, tokens)?;
    let (y, rest) = split_number(text, rest)?;
    let (z, rest) = split_number(text, rest)?;
    Some(([x, y, z], rest))
}

/// The two corners of a box, and nothing behind them.
#[tactic(auto, unfolding(crate::specs::Reading::corners_at))]
pub(crate) fn corners(text: &[u8], tokens: &[Token]) -> Option<Corners>
    requires { All (LiesIn text.now) tokens.now }
    ensures { result ≡ corners_at (lexemes text.now tokens.now) }
{
    let (lo, rest) = corner(text, tokens)?;
    let (hi, rest) = corner(text, rest)?;
    at_end(text, rest, Corners { lo, hi })
}

/// Whether there is a number, and each is above the one before.
fn is_list(numbers: &[u64]) -> bool
    ensures { result ≡ is_list numbers.now }
{
    !numbers.is_empty() && is_ascending(numbers)
}

/// The numbers at the front, and the tokens behind them.
fn numbers<'a>(
    alloc: Global,
    text: &[u8],
    tokens: &'a [Token],
) -> Result<(Items<u64>, &'a [Token]), StatementFault>
    requires { All (LiesIn text.now) tokens.now }
    ensures read { IfOk result (λ r. numbers_from [] (lexemes text.now tokens.now) ≡ (r.0, lexemes text.now r.1.now)) }
    ensures memory { result ≡ Err StatementFault.BadStatement → ⊥ }
    ensures rest { IfOk result (λ r. All (LiesIn text.now) r.1.now) }
{
    let mut numbers = Items::new(alloc);
    let mut rest = tokens;
    while let Some((n, behind)) = split_number(text, rest) {
        numbers.push(n)?;
        rest = behind;
    }
    Ok((numbers, rest))
}

/// The numbers at the front, at least one and each above the one before, and the tokens behind them.
#[tactic(auto, unfolding(crate::specs::Reading::list_at))]
pub(crate) fn list<'a>(
    alloc: Global,
    text: &[u8],
    tokens: &'a [Token],
) -> Result<(Items<u64>, &'a [Token]), StatementFault>
    requires { All (LiesIn text.now) tokens.now }
    ensures read { Gives StatementFault.NoMemory (λ r. (r.0, lexemes text.now r.1.now)) result (list_at (lexemes text.now tokens.now)) }
    ensures rest { IfOk result (λ r. All (LiesIn text.now) r.1.now) }
{
    let (numbers, rest) = numbers(alloc, text, tokens)?;
    if is_list(numbers.as_slice()) {
        Ok((numbers, rest))
    } else {
        Err(StatementFault::BadStatement)
    }
}

/// The same, and nothing behind it.
#[tactic(auto, using(crate::proofs::Ends::if_empty_map), unfolding(crate::specs::Reading::last_list_at))]
pub(crate) fn last_list(
    alloc: Global,
    text: &[u8],
    tokens: &[Token],
) -> Result<Items<u64>, StatementFault>
    requires { All (LiesIn text.now) tokens.now }
    ensures { Gives StatementFault.NoMemory (λ numbers. numbers) result (last_list_at (lexemes text.now tokens.now)) }
{
    let (numbers, rest) = list(alloc, text, tokens)?;
    at_end(text, rest, numbers).ok_or(StatementFault::BadStatement)
}

/// A name, and nothing behind it.
#[tactic(auto, using(crate::proofs::Ends::if_empty_map), unfolding(crate::specs::Reading::name_at))]
pub(crate) fn name<'t>(text: &'t [u8], tokens: &[Token]) -> Option<&'t [u8]>
    requires { All (LiesIn text.now) tokens.now }
    ensures { option_map (λ name. name.now) result ≡ name_at (lexemes text.now tokens.now) }
{
    let (name, rest) = split_name(text, tokens)?;
    at_end(text, rest, name)
}

/// The name, the centring and the number outside of a variable.
#[tactic(auto, using(crate::proofs::Ends::if_empty_map), unfolding(crate::specs::Reading::var_parts_at))]
pub(crate) fn var_parts<'t>(text: &'t [u8], tokens: &[Token]) -> Option<(&'t [u8], Centring, i64)>
    requires { All (LiesIn text.now) tokens.now }
    ensures { option_map (λ r. (r.0.now, r.1, r.2)) result ≡ var_parts_at (lexemes text.now tokens.now) }
{
    let (name, rest) = split_name(text, tokens)?;
    let (centring, rest) = split_meaning(text, rest, &CENTRINGS)?;
    let rest = behind_word(text, rest, b"outside")?;
    let (outside, rest) = split_signed(text, rest)?;
    at_end(text, rest, (name, centring, outside))
}

/// The name and the fold of a reduction.
#[tactic(auto, using(crate::proofs::Ends::if_empty_map), unfolding(crate::specs::Reading::fold_parts_at))]
pub(crate) fn fold_parts<'t>(text: &'t [u8], tokens: &[Token]) -> Option<(&'t [u8], Fold)>
    requires { All (LiesIn text.now) tokens.now }
    ensures { option_map (λ r. (r.0.now, r.1)) result ≡ fold_parts_at (lexemes text.now tokens.now) }
{
    let (name, rest) = split_name(text, tokens)?;
    let (fold, rest) = split_meaning(text, rest, &FOLDS)?;
    at_end(text, rest, (name, fold))
}

/// Layers of ghost data, and nothing behind them.
#[tactic(auto, unfolding(crate::specs::Reading::layers_at))]
fn layers(text: &[u8], tokens: &[Token]) -> Option<Ghost>
    requires { All (LiesIn text.now) tokens.now }
    ensures { result ≡ layers_at (lexemes text.now tokens.now) }
{
    if let Some(rest) = behind_word(text, tokens, b"none") {
        let kind = GhostKind::None;
        return at_end(text, rest, Ghost { kind, n: 0 });
    }
    let (kind, rest) = split_meaning(text, tokens, &GHOSTS)?;
    let n = some_number(text, rest)?;
    Some(Ghost { kind, n })
}

/// A name and its layers, and nothing behind them.
#[tactic(auto, unfolding(crate::specs::Reading::layered_at))]
pub(crate) fn layered<'t>(text: &'t [u8], tokens: &[Token]) -> Option<(&'t [u8], Ghost)>
    requires { All (LiesIn text.now) tokens.now }
    ensures { option_map (λ r. (r.0.now, r.1)) result ≡ layered_at (lexemes text.now tokens.now) }
{
    let (name, rest) = split_name(text, tokens)?;
    Some((name, layers(text, rest)?))
}
