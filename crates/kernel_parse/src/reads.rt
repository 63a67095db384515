//! Expressions with no parts: numbers, places, and reads of variables.
ghost use Rattle.std.specs.Prelude.{◌≡◌, ◌+◌, ◌<◌, ◌^◌, length, All, IfOk, IfSome, Ok};
ghost use Rattle.kernel_parse.specs.declared.fault.ExprFault.TheVariants.{NoMemory};
ghost use Rattle.kernel_parse.specs.Reading.{Gives, parsed, offset_at, read_by, fine_at, coarse_at, own_at, variable_at, read_at, leaf_at};
ghost use Rattle.kernel_parse.specs.Source.{LiesIn, IsBehind, CanRead, Extends, lexemes};

use crate::fault::ExprFault;
use crate::tokens::{
    behind_sign, behind_word, split_atom, split_dot_name, split_fine, split_name, split_signed,
    split_store,
};
use crate::tree::{Tree, leaf};
use kernel_ast::{Expr, How, Read, Store};
use uts_lex::{Names, Token};

/// Three numbers in brackets, by axis, and the tokens behind them.
#[tactic(auto, using(crate::specs::SourceLaws::IsBehind_trans), unfolding(crate::specs::Reading::offset_at))]
fn offset<'a>(text: &[u8], tokens: &'a [Token]) -> Result<([i64; 3], &'a [Token]), ExprFault>
    requires { All (LiesIn text.now) tokens.now }
    ensures read { Gives NoMemory (λ r. (r.0, lexemes text.now r.1.now)) result (offset_at (lexemes text.now tokens.now)) }
    ensures rest { IfOk result (λ r. IsBehind text.now tokens.now r.1.now) }
{
    let rest = behind_sign(text, tokens, b"[").ok_or(ExprFault::BadExpr)?;
    let (x, rest) = split_signed(text, rest).ok_or(ExprFault::BadExpr)?;
    let rest = behind_sign(text, rest, b",").ok_or(ExprFault::BadExpr)?;
    let (y, rest) = split_signed(text, rest).ok_or(ExprFault::BadExpr)?;
    let rest = behind_sign(text, rest, b",").ok_or(ExprFault::BadExpr)?;
    let (z, rest) = split_signed(text, rest).ok_or(ExprFault::BadExpr)?;
    let rest = behind_sign(text, rest, b"]").ok_or(ExprFault::BadExpr)?;
    Ok(([x, y, z], rest))
}

/// A read of the name at the offset that stands first, and the tokens behind it.
#[tactic(auto, using(crate::specs::SourceLaws::kept_words, kernel_ast::specs::Size::depths_of_forms, kernel_ast::specs::Size::node_counts_of_forms))]
fn read_by<'a>(
    text: &[u8],
    tokens: &'a [Token],
    names: &mut Names,
    store: Store,
    how: How,
    name: &[u8],
) -> Result<(Tree, &'a [Token]), ExprFault>
    requires { CanRead text.now names.old tokens.now }
    ensures read { Gives NoMemory (λ r. parsed r.0.expr names.new (lexemes text.now r.1.now)) result (read_by store how names.old name.now (lexemes text.now tokens.now)) }
    ensures rest { IfOk result (λ r. CanRead text.now names.new r.1.now) }
    ensures kept { Extends names.old names.new }
{
    let (offset, rest) = offset(text, tokens)?;
    let name = names.number(name)?;
    let read = Read {
        store,
        how,
        name,
        offset,
    };
    Ok((leaf(Expr::Read(read)), rest))
}

/// What stands behind `STORE.` and a fine form.
#[tactic(auto, using(crate::specs::SourceLaws::kept_words, kernel_ast::specs::Size::depths_of_forms, kernel_ast::specs::Size::node_counts_of_forms))]
fn fine<'a>(
    text: &[u8],
    tokens: &'a [Token],
    names: &mut Names,
    store: Store,
    how: How,
) -> Result<(Tree, &'a [Token]), ExprFault>
    requires { CanRead text.now names.old tokens.now }
    ensures read { Gives NoMemory (λ r. parsed r.0.expr names.new (lexemes text.now r.1.now)) result (fine_at store how names.old (lexemes text.now tokens.now)) }
    ensures rest { IfOk result (λ r. CanRead text.now names.new r.1.now) }
    ensures kept { Extends names.old names.new }
{
    let (name, rest) = split_dot_name(text, tokens).ok_or(ExprFault::BadExpr)?;
    let name = names.number(name)?;
    let read = Read {
        store,
        how,
        name,
        offset: [0, 0, 0],
    };
    Ok((leaf(Expr::Read(read)), rest))
}

/// What stands behind `STORE.coarse`.
fn coarse<'a>(
    text: &[u8],
    tokens: &'a [Token],
    names: &mut Names,
    store: Store,
) -> Result<(Tree, &'a [Token]), ExprFault>
    requires { CanRead text.now names.old tokens.now }
    ensures read { Gives NoMemory (λ r. parsed r.0.expr names.new (lexemes text.now r.1.now)) result (coarse_at store names.old (lexemes text.now tokens.now)) }
    ensures rest { IfOk result (λ r. CanRead text.now names.new r.1.now) }
    ensures kept { Extends names.old names.new }
{
    let (name, rest) = split_dot_name(text, tokens).ok_or(ExprFault::BadExpr)?;
    read_by(text, rest, names, store, How::Coarse, name)
}

/// What stands behind `STORE.`, where it is the name of a variable or a reduction.
#[tactic(auto, using(crate::specs::SourceLaws::kept_words, kernel_ast::specs::Size::depths_of_forms, kernel_ast::specs::Size::node_counts_of_forms))]
fn own<'a>(
    text: &[u8],
    tokens: &'a [Token],
    names: &mut Names,
    store: Store,
) -> Result<(Tree, &'a [Token]), ExprFault>
    requires { CanRead text.now names.old tokens.now }
    ensures read { Gives NoMemory (λ r. parsed r.0.expr names.new (lexemes text.now r.1.now)) result (own_at store names.old (lexemes text.now tokens.now)) }
    ensures rest { IfOk result (λ r. CanRead text.now names.new r.1.now) }
    ensures kept { Extends names.old names.new }
{
    let (name, rest) = split_name(text, tokens).ok_or(ExprFault::BadExpr)?;
    if behind_sign(text, rest, b"[").is_some() {
        return read_by(text, rest, names, store, How::Same, name);
    }
    let name = names.number(name)?;
    Ok((leaf(Expr::Number { store, name }), rest))
}

/// What stands behind `STORE.`.
#[tactic(auto, unfolding(crate::specs::Reading::variable_at))]
fn variable<'a>(
    text: &[u8],
    tokens: &'a [Token],
    names: &mut Names,
    store: Store,
) -> Result<(Tree, &'a [Token]), ExprFault>
    requires { CanRead text.now names.old tokens.now }
    ensures read { Gives NoMemory (λ r. parsed r.0.expr names.new (lexemes text.now r.1.now)) result (variable_at store names.old (lexemes text.now tokens.now)) }
    ensures rest { IfOk result (λ r. CanRead text.now names.new r.1.now) }
    ensures kept { Extends names.old names.new }
{
    if let Some(rest) = behind_word(text, tokens, b"coarse") {
        return coarse(text, rest, names, store);
    }
    if let Some((how, rest)) = split_fine(text, tokens) {
        return fine(text, rest, names, store, how);
    }
    own(text, tokens, names, store)
}

/// A read of a variable or of a reduction.
#[tactic(auto, unfolding(crate::specs::Reading::read_at))]
fn read<'a>(
    text: &[u8],
    tokens: &'a [Token],
    names: &mut Names,
) -> Result<(Tree, &'a [Token]), ExprFault>
    requires { CanRead text.now names.old tokens.now }
    ensures read { Gives NoMemory (λ r. parsed r.0.expr names.new (lexemes text.now r.1.now)) result (read_at names.old (lexemes text.now tokens.now)) }
    ensures rest { IfOk result (λ r. CanRead text.now names.new r.1.now) }
    ensures kept { Extends names.old names.new }
{
    let (store, rest) = split_store(text, tokens).ok_or(ExprFault::BadExpr)?;
    let rest = behind_sign(text, rest, b".").ok_or(ExprFault::BadExpr)?;
    variable(text, rest, names, store)
}

/// An expression with no parts, and the tokens behind it.
#[tactic(auto, unfolding(crate::specs::Reading::leaf_at))]
pub(crate) fn read_leaf<'a>(
    text: &[u8],
    tokens: &'a [Token],
    names: &mut Names,
) -> Result<(Tree, &'a [Token]), ExprFault>
    requires { CanRead text.now names.old tokens.now }
    ensures read { Gives NoMemory (λ r. parsed r.0.expr names.new (lexemes text.now r.1.now)) result (leaf_at names.old (lexemes text.now tokens.now)) }
    ensures rest { IfOk result (λ r. CanRead text.now names.new r.1.now) }
    ensures kept { Extends names.old names.new }
{
    if let Some((atom, rest)) = split_atom(text, tokens) {
        return Ok((leaf(atom), rest));
    }
    read(text, tokens, names)
}
