//! A kernel's numbers on a span, combined.
ghost use Rattle.std.specs.Prelude.{◌≡◌, ◌≤◌, map, fold, length};
ghost use Rattle.uts_geom.specs.Spans.{indexes_of, row_indexes, width_of};
ghost use Rattle.kernel_ast.specs.Size.{depth_of};
ghost use Rattle.kernel_rows.specs.Scratch.{scratch_of};
ghost use Rattle.reductions.specs.Folding.{combined};
ghost use Rattle.kernel_sweeps.specs.Room.{room_on};
ghost use Rattle.kernel_sweeps.specs.Sweeps.{number_at};

use crate::{Sweep, fill_row, width};
use kernel_rows::Reads;
use reductions::{Fold, combine};
use uts_geom::rows;

/// The numbers combined with those before them.
fn fold_row(how: Fold, total: i64, numbers: &[i64]) -> i64
    ensures { result ≡ fold (combined how) total numbers.now }
{
    let mut all = total;
    for number in numbers {
        all = combine(how, all, *number);
    }
    all
}

/// The kernel's numbers along the row at y and z, combined with those before them.
fn fold_along<R: Reads>(
    how: Fold,
    total: i64,
    sweep: &Sweep,
    at: (i64, i64),
    reads: &R,
    out: &mut [i64],
    scratch: &mut [i64],
) -> i64
    requires places { length out.old ≡ width_of sweep.now.span }
    requires room { scratch_of (width_of sweep.now.span) (depth_of sweep.now.kernel.now) ≤ length scratch.old }
    ensures { result ≡ fold (combined how) total
        (map (number_at sweep.now (R.numbers reads.now) (R.reductions reads.now)) (row_indexes sweep.now.span at.0 at.1)) }
{
    let (y, z) = at;
    fill_row(sweep, y, z, reads, out, scratch);
    fold_row(how, total, out)
}

/// The kernel's numbers at all indexes of the span, combined with those before them, row by row.
fn fold_by_rows<R: Reads>(
    how: Fold,
    total: i64,
    sweep: &Sweep,
    reads: &R,
    out: &mut [i64],
    scratch: &mut [i64],
) -> i64
    requires places { length out.old ≡ width_of sweep.now.span }
    requires room { scratch_of (width_of sweep.now.span) (depth_of sweep.now.kernel.now) ≤ length scratch.old }
    ensures { result ≡ fold (combined how) total
        (map (number_at sweep.now (R.numbers reads.now) (R.reductions reads.now)) (indexes_of sweep.now.span)) }
{
    let mut all = total;
    for at in rows(sweep.span) {
        all = fold_along(how, all, sweep, at, reads, out, scratch);
    }
    all
}

/// The kernel's numbers at all indexes of the span, combined with those before them, row by row. What stands in `scratch` before does
/// not matter. It takes no memory.
pub fn fold_numbers<R: Reads>(
    how: Fold,
    total: i64,
    sweep: &Sweep,
    reads: &R,
    scratch: &mut [i64],
) -> i64
    requires { room_on sweep.now.kernel.now sweep.now.span ≤ length scratch.old }
    ensures { result ≡ fold (combined how) total
        (map (number_at sweep.now (R.numbers reads.now) (R.reductions reads.now)) (indexes_of sweep.now.span)) }
{
    let (out, parts) = scratch.split_at_mut(width(sweep.span));
    fold_by_rows(how, total, sweep, reads, out, parts)
}
