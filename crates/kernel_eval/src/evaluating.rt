//! A kernel at one index.
ghost use Rattle.std.specs.Prelude.{◌≡◌, ◌≤◌};
ghost use Rattle.kernel_ast.specs.Size.{depth_of};
ghost use Rattle.kernel_ast.specs.Value.{value_of};
ghost use Rattle.uts_geom.specs.Spans.{IsNear};
ghost use Rattle.kernel_eval.specs.Environments.{environment_of};

use crate::Windows;
use kernel_ast::Expr;
use kernel_rows::{KernelRow, evaluate};
use uts_geom::Index;

/// The number of an expression where a kernel runs. A read without a part and a reduction without a number give 0, and so does what the
/// span of a part's window does not hold. It takes no memory.
pub fn eval(e: &Expr, w: &Windows, i: Index) -> i64
    requires near { IsNear i }
    requires shallow { depth_of e.now ≤ 64 }
    ensures { result ≡ value_of e.now (environment_of w.now i) }
{
    let row = KernelRow {
        step: w.step,
        material: w.material,
        level: w.level,
        y: i.y,
        z: i.z,
        low: i.x,
        high: i.x + 1,
    };
    let mut out = [0; 1];
    let mut scratch = [0; 128];
    evaluate(e, row, w, &mut out, &mut scratch);
    out[0]
}
