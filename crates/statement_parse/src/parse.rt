ghost use Rattle.std.specs.Prelude.{◌≡◌, ◌+◌, ◌<◌, ◌^◌, length, All, IfOk, Err};
ghost use Rattle.kernel_parse.specs.Grammar.{Words};
ghost use Rattle.kernel_parse.specs.Source.{LiesIn, Extends, lexemes};
ghost use Rattle.statement_parse.specs.Grammar.{SpellsStatement};
ghost use Rattle.statement_parse.specs.declared.statement.Statement.{Statement};

use crate::fault::StatementFault;
use crate::named::statement;
use crate::statement::Statement;
use crate::writes::{split_target, write};
use std::alloc::Global;
use uts_lex::{Names, Token};

/// The statement that the tokens are, all of them. The names that it has for the first time are numbered
/// behind those that `names` has. After an error `names` has its old words in their places, and perhaps
/// further ones behind them.
pub fn parse_statement(
    alloc: Global,
    text: &[u8],
    tokens: &[Token],
    names: &mut Names,
) -> Result<Statement, StatementFault>
    requires inside { All (LiesIn text.now) tokens.now }
    requires few { length names.old + length tokens.now < 2 ^ 31 }
    ensures found { IfOk result (λ s. SpellsStatement (lexemes text.now tokens.now) names.old s names.new) }
    ensures bad_statement { result ≡ Err StatementFault.BadStatement
        → (s : Statement) (after : Words) → SpellsStatement (lexemes text.now tokens.now) names.old s after → ⊥ }
    ensures kept { Extends names.old names.new }
{
    if let Some((name, kind, rest)) = split_target(text, tokens) {
        return write(alloc, text, rest, names, kind, name);
    }
    statement(alloc, text, tokens, names)
}
