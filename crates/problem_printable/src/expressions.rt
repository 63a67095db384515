//! Whether an expression can be spelled.
ghost use Rattle.std.specs.Prelude.{◌≡◌, ◌↔◌, IsTrue};
ghost use Rattle.kernel_ast.specs.Form.{IsExpressionInForm};
ghost use Rattle.problem_printable.specs.Printable.{is_offset, expression_fits};

use kernel_ast::in_form;
use problem_types::Expr;

/// Whether a kernel may have this expression where so many names are known. Nothing goes down an expression that is
/// deeper than the limit.
pub(crate) fn is_sayable(e: &Expr, names: usize) -> bool
    ensures { IsTrue result ↔ (IsExpressionInForm names e.now × IsTrue (expression_fits e.now)) }
{
    in_form(e, names) && do_numbers_fit(e)
}

// Whether the numbers of the expression have 64 bits. Each has, by its type, and that is known where it is read.
#[tactic(auto, using(crate::proofs::Forms::fits_of_forms))]
fn do_numbers_fit(e: &Expr) -> bool
    ensures { result ≡ expression_fits e.now }
{
    match e {
        Expr::Literal(n) => {
            let _value = *n;
            true
        }
        Expr::Read(read) => is_offset(&read.offset),
        Expr::X
        | Expr::Y
        | Expr::Z
        | Expr::Level
        | Expr::Material
        | Expr::Step
        | Expr::Number { .. } => true,
        Expr::Neg(a) => do_numbers_fit(a.get()),
        Expr::Binary(_, a, b) => do_numbers_fit(a.get()) && do_numbers_fit(b.get()),
        Expr::Select(c, a, b) => {
            do_numbers_fit(c.get()) && do_numbers_fit(a.get()) && do_numbers_fit(b.get())
        }
    }
}

fn is_offset(offset: &[i64; 3]) -> bool
    ensures { result ≡ is_offset offset.now }
{
    let [_x, _y, _z] = *offset;
    true
}
