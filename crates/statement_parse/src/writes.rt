//! Statements that write, from tokens.
ghost use Rattle.std.specs.Prelude.{◌≡◌, ◌+◌, ◌<◌, ◌^◌, length, All, IfOk, IfSome, Err};
ghost use Rattle.std.specs.Option.{option_map};
ghost use Rattle.uts_lex.specs.Names.{with_name};
ghost use Rattle.kernel_ast.specs.declared.expression.Expr.{Expr};
ghost use Rattle.kernel_parse.specs.Grammar.{Words, SpellsExpression};
ghost use Rattle.kernel_parse.specs.Source.{LiesIn, IsBehind, Extends, lexemes};
ghost use Rattle.statement_parse.specs.Reading.{target_at, IsWritten};

use crate::fault::StatementFault;
use crate::statement::Statement;
use crate::words::{CENTRINGS, WRITES};
use kernel_parse::{ExprFault, behind_sign, behind_word, parse_expr, split_meaning, split_name};
use problem_types::WriteKind;
use std::alloc::Global;
use uts_lex::{Names, Token};

/// A name and how it is written, and the tokens behind the `=`.
type Target<'t, 'a> = (&'t [u8], WriteKind, &'a [Token]);

/// What a statement writes.
#[tactic(auto, using(kernel_parse::specs::SourceLaws::IsBehind_trans), unfolding(crate::specs::Reading::target_at))]
pub(crate) fn split_target<'t, 'a>(text: &'t [u8], tokens: &'a [Token]) -> Option<Target<'t, 'a>>
    requires { All (LiesIn text.now) tokens.now }
    ensures read { option_map (λ r. (r.0.now, r.1, lexemes text.now r.2.now)) result ≡ target_at (lexemes text.now tokens.now) }
    ensures rest { IfSome result (λ r. IsBehind text.now tokens.now r.2.now) }
{
    if let Some((kind, rest)) = split_meaning(text, tokens, &WRITES) {
        let (name, rest) = split_name(text, rest)?;
        return Some((name, kind, behind_sign(text, rest, b"=")?));
    }
    let rest = behind_word(text, tokens, b"reduces")?;
    let (name, rest) = split_name(text, rest)?;
    let (centring, rest) = split_meaning(text, rest, &CENTRINGS)?;
    let rest = behind_sign(text, rest, b"=")?;
    Some((name, WriteKind::Reduces(centring), rest))
}

/// The expression that is written to the name.
#[tactic(auto, using(kernel_parse::specs::SourceLaws::kept_words))]
pub(crate) fn write(
    alloc: Global,
    text: &[u8],
    tokens: &[Token],
    names: &mut Names,
    kind: WriteKind,
    name: &[u8],
) -> Result<Statement, StatementFault>
    requires inside { All (LiesIn text.now) tokens.now }
    requires few { length names.old + length tokens.now + 1 < 2 ^ 31 }
    ensures found { IfOk result (λ s. IsWritten (lexemes text.now tokens.now) names.old kind name.now s names.new) }
    ensures bad_statement { result ≡ Err StatementFault.BadStatement
        → (e : Expr) (after : Words) → SpellsExpression (lexemes text.now tokens.now) (with_name names.old name.now) e after → ⊥ }
    ensures kept { Extends names.old names.new }
{
    let name = names.number(name)?;
    match parse_expr(alloc, text, tokens, names) {
        Ok(expr) => Ok(Statement::Write { kind, name, expr }),
        Err(ExprFault::BadExpr) => Err(StatementFault::BadStatement),
        Err(ExprFault::NoMemory) => Err(StatementFault::NoMemory),
    }
}
