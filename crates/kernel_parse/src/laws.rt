//! What holds of the grammar, each law as the contract of a function that does nothing.
ghost use Rattle.std.specs.Prelude.{◌≡◌, ◌+◌, ◌≤◌, ℕ, List, length};
ghost use Rattle.uts_lex.specs.Lexemes.{Lexeme};
ghost use Rattle.kernel_ast.specs.declared.expression.Expr.{Expr};
ghost use Rattle.kernel_ast.specs.Form.{IsExpressionInForm};
ghost use Rattle.kernel_parse.specs.Grammar.{Words, SpellsExpression};
ghost use Rattle.kernel_parse.specs.Laws.{ExpressionsAreJudged};
ghost use Rattle.kernel_parse.specs.Source.{Extends};

/// Tokens are one expression at most, and name the same words.
#[tactic(auto, using(crate::proofs::Complete::one_at_most))]
pub fn one_reading()
    ensures { (tokens : List Lexeme) (names after other : Words) (e f : Expr)
        → SpellsExpression tokens names e after → SpellsExpression tokens names f other
        → (e ≡ f) × (after ≡ other) }
{}

/// An expression that is spelled is in form, over each number of names from those then named on.
#[tactic(auto, using(crate::proofs::Forms::expression_in_form))]
pub fn spelled_in_form()
    ensures { (tokens : List Lexeme) (names after : Words) (e : Expr) (known : ℕ)
        → SpellsExpression tokens names e after → length after ≤ known → IsExpressionInForm known e }
{}

/// The words before an expression stay, and it names no more new ones than it has tokens.
#[tactic(auto, using(crate::proofs::Forms::words_kept))]
pub fn few_new_words()
    ensures { (tokens : List Lexeme) (names after : Words) (e : Expr) → SpellsExpression tokens names e after
        → Extends names after × (length after ≤ length names + length tokens) }
{}

/// Tokens are some expression, or they are none.
pub fn expressions_are_judged()
    ensures { ExpressionsAreJudged }
{}
