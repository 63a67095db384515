//! The operations of expressions.
ghost use Rattle.std.specs.Prelude.{◌≡◌, pos};
ghost use Rattle.std.specs.Ordering.{int_eq};
ghost use Rattle.kernel_ast.specs.Value.{result_of, truth_of};

use problem_types::Op;
use reductions::{wadd, wdiv, wmul, wrem, wsub};

/// The number of a binary operation.
pub(crate) fn apply(op: Op, a: i64, b: i64) -> i64
    ensures { result ≡ result_of op a b }
{
    match op {
        Op::Add => wadd(a, b),
        Op::Sub => wsub(a, b),
        Op::Mul => wmul(a, b),
        Op::Div => wdiv(a, b),
        Op::Rem => wrem(a, b),
        Op::Lt => truth(a < b),
        Op::Le => truth(a <= b),
        Op::Gt => truth(a > b),
        Op::Ge => truth(a >= b),
        Op::Eq => truth(a == b),
        Op::Ne => truth(a != b),
        Op::Min => a.min(b),
        Op::Max => a.max(b),
    }
}

/// Whether a number is 0.
pub(crate) fn is_zero(n: i64) -> bool
    ensures { result ≡ int_eq n (pos 0) }
{
    n == 0
}

/// 1 where a comparison holds, else 0.
fn truth(holds: bool) -> i64
    ensures { result ≡ truth_of holds }
{
    if holds { 1 } else { 0 }
}
