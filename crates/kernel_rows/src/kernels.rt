ghost use Rattle.std.specs.Prelude.{◌≡◌, ◌≤◌, length};
ghost use Rattle.std.specs.Int.{int_gap};
ghost use Rattle.kernel_ast.specs.Size.{depth_of};
ghost use Rattle.kernel_rows.specs.Scratch.{scratch_of};
ghost use Rattle.kernel_rows.specs.Values.{values_on};

use crate::loops::{choose_all, combine, fill_ascending, fill_constant, negate_all};
use crate::{KernelRow, Reads};
use kernel_ast::Expr;

/// How many places of scratch `evaluate` needs for kernels of this depth, along rows of so many indexes.
pub fn scratch_places(width: usize, depth: u32) -> usize
    requires { width ≤ 131072 }
    ensures { result ≡ scratch_of width depth }
{
    2 * (width * depth as usize)
}

/// Fills `out` with the kernel's numbers along a row, by ascending x. `out` has a place for each index of the row, and what
/// stands in `scratch` before does not matter, nor what is left there. It takes no memory, and goes down as deep as the kernel.
pub fn evaluate<R: Reads>(
    kernel: &Expr,
    row: KernelRow,
    reads: &R,
    out: &mut [i64],
    scratch: &mut [i64],
)
    requires places { length out.old ≡ int_gap row.low row.high }
    requires room { scratch_of (int_gap row.low row.high) (depth_of kernel.now) ≤ length scratch.old }
    ensures { out.new ≡ values_on kernel.now row (R.numbers reads.now) (R.reductions reads.now) }
{
    let width = out.len();
    match kernel {
        Expr::Literal(n) => fill_constant(*n, out),
        Expr::X => fill_ascending(row, out),
        Expr::Y => fill_constant(row.y, out),
        Expr::Z => fill_constant(row.z, out),
        Expr::Level => fill_constant(i64::from(row.level), out),
        Expr::Material => fill_constant(i64::from(row.material), out),
        Expr::Step => fill_constant(i64::from(row.step), out),
        Expr::Read(read) => reads.fill(read, row, out),
        Expr::Number { store, name } => fill_constant(reads.number(*store, *name), out),
        Expr::Neg(a) => {
            evaluate(a.get(), row, reads, out, scratch);
            negate_all(out);
        }
        Expr::Binary(op, a, b) => {
            evaluate(a.get(), row, reads, out, scratch);
            let (right, rest) = scratch.split_at_mut(width);
            evaluate(b.get(), row, reads, right, rest);
            combine(*op, out, right);
        }
        Expr::Select(c, a, b) => {
            evaluate(c.get(), row, reads, out, scratch);
            let (first, rest) = scratch.split_at_mut(width);
            evaluate(a.get(), row, reads, first, rest);
            let (second, rest) = rest.split_at_mut(width);
            evaluate(b.get(), row, reads, second, rest);
            choose_all(out, first, second);
        }
    }
}
