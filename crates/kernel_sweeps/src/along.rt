//! A kernel along one row of a span.
ghost use Rattle.std.specs.Prelude.{◌≡◌, ◌≤◌, map, length};
ghost use Rattle.uts_geom.specs.Spans.{row_indexes, width_of};
ghost use Rattle.kernel_ast.specs.Size.{depth_of};
ghost use Rattle.kernel_rows.specs.Scratch.{scratch_of};
ghost use Rattle.kernel_sweeps.specs.Sweeps.{number_at, row_on};

use crate::Sweep;
use kernel_rows::{KernelRow, Reads, evaluate};

/// The row of a sweep at y and z.
fn row_at(sweep: &Sweep, y: i64, z: i64) -> KernelRow
    ensures { result ≡ row_on sweep.now y z }
{
    KernelRow {
        step: sweep.step,
        material: sweep.material,
        level: sweep.level,
        y,
        z,
        low: sweep.span.lo.x,
        high: sweep.span.hi.x,
    }
}

/// Fills `out` with the kernel's numbers along the row at y and z.
pub fn fill_row<R: Reads>(
    sweep: &Sweep,
    y: i64,
    z: i64,
    reads: &R,
    out: &mut [i64],
    scratch: &mut [i64],
)
    requires places { length out.old ≡ width_of sweep.now.span }
    requires room { scratch_of (width_of sweep.now.span) (depth_of sweep.now.kernel.now) ≤ length scratch.old }
    ensures { out.new ≡ map (number_at sweep.now (R.numbers reads.now) (R.reductions reads.now)) (row_indexes sweep.now.span y z) }
{
    evaluate(sweep.kernel, row_at(sweep, y, z), reads, out, scratch);
}
