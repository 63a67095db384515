ghost use Rattle.std.specs.Prelude.{◌≡◌, ◌+◌, ◌<◌, ◌^◌, length, All, IfOk, Err};
ghost use Rattle.kernel_ast.specs.declared.expression.Expr.{Expr};
ghost use Rattle.kernel_ast.specs.Form.{IsExpressionInForm};
ghost use Rattle.kernel_parse.specs.Grammar.{Words, SpellsExpression};
ghost use Rattle.kernel_parse.specs.Source.{LiesIn, Extends, lexemes};

use crate::fault::ExprFault;
use crate::parser::read_all;
use kernel_ast::Expr;
use std::alloc::Global;
use uts_lex::{Names, Token};

/// The expression that the tokens are, all of them. The names that it reads for the first time are
/// numbered behind those that `names` has. After an error `names` has its old words in their places,
/// and perhaps further ones behind them.
#[tactic(auto, using(crate::proofs::Sound::all_spelled, crate::proofs::Complete::all_read, crate::proofs::Forms::all_in_form))]
pub fn parse_expr(
    alloc: Global,
    text: &[u8],
    tokens: &[Token],
    names: &mut Names,
) -> Result<Expr, ExprFault>
    requires inside { All (LiesIn text.now) tokens.now }
    requires few { length names.old + length tokens.now < 2 ^ 31 }
    ensures found { IfOk result (λ e. SpellsExpression (lexemes text.now tokens.now) names.old e names.new) }
    ensures bad_expr { result ≡ Err ExprFault.BadExpr
        → (e : Expr) (after : Words) → ¬ SpellsExpression (lexemes text.now tokens.now) names.old e after }
    ensures in_form { IfOk result (λ e. IsExpressionInForm (length names.new) e) }
    ensures kept { Extends names.old names.new }
{
    Ok(read_all(alloc, text, tokens, names)?.expr)
}
