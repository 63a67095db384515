//! What stands first among some tokens of a text, and the tokens behind it.
ghost use Rattle.std.specs.Prelude.{◌≡◌, All, IfSome, map};
ghost use Rattle.std.specs.Option.{option_map};
ghost use Rattle.kernel_parse.specs.Signs.{is_word, meaning_of, meaning_in, entry_of, comparison_of, op_of, call_of, store_of, fine_of};
ghost use Rattle.kernel_parse.specs.Reading.{behind, behind_sign, first_as, number_of_token, name_of_token, atom_of, dot_name_at, signed_at, IsLeaf};
ghost use Rattle.kernel_parse.specs.Source.{LiesIn, IsBehind, lexemes};

use crate::lexeme::{
    CALLS, COMPARISONS, Chain, FACTOR_OPERATORS, FINE_FORMS, STORES, TERM_OPERATORS, atom_of,
    is_lexeme, meaning_of, name_of, number_of,
};
use kernel_ast::{Expr, How, Op, Store};
use uts_lex::{Kind, Token};

/// The tokens behind the sign, where it stands first.
pub fn behind_sign<'a>(text: &[u8], tokens: &'a [Token], bytes: &[u8]) -> Option<&'a [Token]>
    requires { All (LiesIn text.now) tokens.now }
    ensures read { option_map (λ rest. lexemes text.now rest.now) result ≡ behind_sign bytes.now (lexemes text.now tokens.now) }
    ensures rest { IfSome result (λ rest. IsBehind text.now tokens.now rest.now) }
{
    let (first, rest) = tokens.split_first()?;
    if is_lexeme(text, first, Kind::Sign, bytes) {
        Some(rest)
    } else {
        None
    }
}

/// The tokens behind the word, where it stands first.
pub fn behind_word<'a>(text: &[u8], tokens: &'a [Token], bytes: &[u8]) -> Option<&'a [Token]>
    requires { All (LiesIn text.now) tokens.now }
    ensures read { option_map (λ rest. lexemes text.now rest.now) result ≡ behind (is_word bytes.now) (lexemes text.now tokens.now) }
    ensures rest { IfSome result (λ rest. IsBehind text.now tokens.now rest.now) }
{
    let (first, rest) = tokens.split_first()?;
    if is_lexeme(text, first, Kind::Word, bytes) {
        Some(rest)
    } else {
        None
    }
}

/// What the first token means, by a table of tokens of this kind, and the tokens behind it.
pub(crate) fn split_of_kind<'a, T: Copy>(
    text: &[u8],
    tokens: &'a [Token],
    kind: Kind,
    table: &[(&[u8], T)],
) -> Option<(T, &'a [Token])>
    requires { All (LiesIn text.now) tokens.now }
    ensures read { option_map (λ r. (r.0, lexemes text.now r.1.now)) result ≡ first_as (meaning_of kind (map entry_of table.now)) (lexemes text.now tokens.now) }
    ensures rest { IfSome result (λ r. IsBehind text.now tokens.now r.1.now) }
{
    let (first, rest) = tokens.split_first()?;
    Some((meaning_of(text, first, kind, table)?, rest))
}

/// What the first token means, by a table of words, and the tokens behind it.
pub fn split_meaning<'a, T: Copy>(
    text: &[u8],
    tokens: &'a [Token],
    table: &[(&[u8], T)],
) -> Option<(T, &'a [Token])>
    requires { All (LiesIn text.now) tokens.now }
    ensures read { option_map (λ r. (r.0, lexemes text.now r.1.now)) result ≡ first_as (meaning_in (map entry_of table.now)) (lexemes text.now tokens.now) }
    ensures rest { IfSome result (λ r. IsBehind text.now tokens.now r.1.now) }
{
    split_of_kind(text, tokens, Kind::Word, table)
}

pub(crate) fn split_comparison<'a>(text: &[u8], tokens: &'a [Token]) -> Option<(Op, &'a [Token])>
    requires { All (LiesIn text.now) tokens.now }
    ensures read { option_map (λ r. (r.0, lexemes text.now r.1.now)) result ≡ first_as comparison_of (lexemes text.now tokens.now) }
    ensures rest { IfSome result (λ r. IsBehind text.now tokens.now r.1.now) }
{
    split_of_kind(text, tokens, Kind::Sign, &COMPARISONS)
}

/// An operator between the operands of a chain.
pub(crate) fn split_operator<'a>(
    text: &[u8],
    tokens: &'a [Token],
    chain: Chain,
) -> Option<(Op, &'a [Token])>
    requires { All (LiesIn text.now) tokens.now }
    ensures read { option_map (λ r. (r.0, lexemes text.now r.1.now)) result ≡ first_as (op_of chain) (lexemes text.now tokens.now) }
    ensures rest { IfSome result (λ r. IsBehind text.now tokens.now r.1.now) }
{
    match chain {
        Chain::Sum => split_of_kind(text, tokens, Kind::Sign, &TERM_OPERATORS),
        Chain::Product => split_of_kind(text, tokens, Kind::Sign, &FACTOR_OPERATORS),
    }
}

/// `min` or `max`.
pub(crate) fn split_call<'a>(text: &[u8], tokens: &'a [Token]) -> Option<(Op, &'a [Token])>
    requires { All (LiesIn text.now) tokens.now }
    ensures read { option_map (λ r. (r.0, lexemes text.now r.1.now)) result ≡ first_as call_of (lexemes text.now tokens.now) }
    ensures rest { IfSome result (λ r. IsBehind text.now tokens.now r.1.now) }
{
    split_meaning(text, tokens, &CALLS)
}

/// `old` or `new`, and the tokens behind it.
pub fn split_store<'a>(text: &[u8], tokens: &'a [Token]) -> Option<(Store, &'a [Token])>
    requires { All (LiesIn text.now) tokens.now }
    ensures read { option_map (λ r. (r.0, lexemes text.now r.1.now)) result ≡ first_as store_of (lexemes text.now tokens.now) }
    ensures rest { IfSome result (λ r. IsBehind text.now tokens.now r.1.now) }
{
    split_meaning(text, tokens, &STORES)
}

pub(crate) fn split_fine<'a>(text: &[u8], tokens: &'a [Token]) -> Option<(How, &'a [Token])>
    requires { All (LiesIn text.now) tokens.now }
    ensures read { option_map (λ r. (r.0, lexemes text.now r.1.now)) result ≡ first_as fine_of (lexemes text.now tokens.now) }
    ensures rest { IfSome result (λ r. IsBehind text.now tokens.now r.1.now) }
{
    split_meaning(text, tokens, &FINE_FORMS)
}

/// A number below 2^64, and the tokens behind it.
pub fn split_number<'a>(text: &[u8], tokens: &'a [Token]) -> Option<(u64, &'a [Token])>
    requires { All (LiesIn text.now) tokens.now }
    ensures read { option_map (λ r. (r.0, lexemes text.now r.1.now)) result ≡ first_as number_of_token (lexemes text.now tokens.now) }
    ensures rest { IfSome result (λ r. IsBehind text.now tokens.now r.1.now) }
{
    let (first, rest) = tokens.split_first()?;
    Some((number_of(text, first)?, rest))
}

pub(crate) fn split_atom<'a>(text: &[u8], tokens: &'a [Token]) -> Option<(Expr, &'a [Token])>
    requires { All (LiesIn text.now) tokens.now }
    ensures read { option_map (λ r. (r.0, lexemes text.now r.1.now)) result ≡ first_as atom_of (lexemes text.now tokens.now) }
    ensures rest { IfSome result (λ r. IsBehind text.now tokens.now r.1.now) }
    ensures leaf { IfSome result (λ r. IsLeaf r.0) }
{
    let (first, rest) = tokens.split_first()?;
    Some((atom_of(text, first)?, rest))
}

/// A word that may be a name, and the tokens behind it.
pub fn split_name<'t, 'a>(text: &'t [u8], tokens: &'a [Token]) -> Option<(&'t [u8], &'a [Token])>
    requires { All (LiesIn text.now) tokens.now }
    ensures read { option_map (λ r. (r.0.now, lexemes text.now r.1.now)) result ≡ first_as name_of_token (lexemes text.now tokens.now) }
    ensures rest { IfSome result (λ r. IsBehind text.now tokens.now r.1.now) }
{
    let (first, rest) = tokens.split_first()?;
    Some((name_of(text, first)?, rest))
}

/// A number or `-` and a number, from -2^63 to 2^63 - 1, and the tokens behind it.
#[tactic(auto, using(crate::specs::SourceLaws::IsBehind_trans), unfolding(crate::specs::Reading::signed_at))]
pub fn split_signed<'a>(text: &[u8], tokens: &'a [Token]) -> Option<(i64, &'a [Token])>
    requires { All (LiesIn text.now) tokens.now }
    ensures read { option_map (λ r. (r.0, lexemes text.now r.1.now)) result ≡ signed_at (lexemes text.now tokens.now) }
    ensures rest { IfSome result (λ r. IsBehind text.now tokens.now r.1.now) }
{
    let Some(digits) = behind_sign(text, tokens, b"-") else {
        let (number, rest) = split_number(text, tokens)?;
        return Some((i64::try_from(number).ok()?, rest));
    };
    let (size, rest) = split_number(text, digits)?;
    Some((0i64.checked_sub_unsigned(size)?, rest))
}

/// A name behind a dot.
#[tactic(auto, using(crate::specs::SourceLaws::IsBehind_trans), unfolding(crate::specs::Reading::dot_name_at))]
pub(crate) fn split_dot_name<'t, 'a>(
    text: &'t [u8],
    tokens: &'a [Token],
) -> Option<(&'t [u8], &'a [Token])>
    requires { All (LiesIn text.now) tokens.now }
    ensures read { option_map (λ r. (r.0.now, lexemes text.now r.1.now)) result ≡ dot_name_at (lexemes text.now tokens.now) }
    ensures rest { IfSome result (λ r. IsBehind text.now tokens.now r.1.now) }
{
    split_name(text, behind_sign(text, tokens, b".")?)
}
