//! The numbers of kernels at each index of a span, as lists.
ghost use Rattle.std.specs.Prelude.{◌≡◌, ◌≤◌, ◌++◌, map, length, OnOk, IfOk};
ghost use Rattle.uts_geom.specs.Spans.{indexes_of, row_indexes, width_of};
ghost use Rattle.kernel_ast.specs.Size.{depth_of};
ghost use Rattle.kernel_rows.specs.Scratch.{scratch_of};
ghost use Rattle.kernel_sweeps.specs.Room.{room_on};
ghost use Rattle.kernel_sweeps.specs.Sweeps.{number_at};

use kernel_rows::Reads;
use kernel_sweeps::{Sweep, fill_row, width};
use sqlite_items::Items;
use std::alloc::{AllocError, Global};
use uts_geom::{rows, volume};

/// Puts the kernel's numbers along the row at y and z at the end of `numbers`.
fn push_row<R: Reads>(
    sweep: &Sweep,
    at: (i64, i64),
    reads: &R,
    out: &mut [i64],
    scratch: &mut [i64],
    numbers: &mut Vec<i64>,
) -> Result<(), AllocError>
    requires places { length out.old ≡ width_of sweep.now.span }
    requires room { scratch_of (width_of sweep.now.span) (depth_of sweep.now.kernel.now) ≤ length scratch.old }
    ensures { OnOk result (numbers.new.items ≡ numbers.old.items
        ++ map (number_at sweep.now (R.numbers reads.now) (R.reductions reads.now)) (row_indexes sweep.now.span at.0 at.1)) }
{
    let (y, z) = at;
    fill_row(sweep, y, z, reads, out, scratch);
    numbers.extend_from_slice(out)
}

/// The kernel's numbers at all indexes of the span, row by row.
fn numbers_by_rows<R: Reads>(
    alloc: Global,
    sweep: &Sweep,
    reads: &R,
    out: &mut [i64],
    scratch: &mut [i64],
) -> Result<Items<i64>, AllocError>
    requires places { length out.old ≡ width_of sweep.now.span }
    requires room { scratch_of (width_of sweep.now.span) (depth_of sweep.now.kernel.now) ≤ length scratch.old }
    ensures { IfOk result (λ numbers. numbers
        ≡ map (number_at sweep.now (R.numbers reads.now) (R.reductions reads.now)) (indexes_of sweep.now.span)) }
{
    let mut numbers = Vec::with_capacity(alloc, volume(sweep.span) as usize)?;
    for at in rows(sweep.span) {
        push_row(sweep, at, reads, out, scratch, &mut numbers)?;
    }
    Ok(Items::from_vec(numbers))
}

/// The kernel's numbers at all indexes of the span, x fastest, then y, then z.
pub(crate) fn field_numbers<R: Reads>(
    alloc: Global,
    sweep: &Sweep,
    reads: &R,
    scratch: &mut [i64],
) -> Result<Items<i64>, AllocError>
    requires { room_on sweep.now.kernel.now sweep.now.span ≤ length scratch.old }
    ensures { IfOk result (λ numbers. numbers
        ≡ map (number_at sweep.now (R.numbers reads.now) (R.reductions reads.now)) (indexes_of sweep.now.span)) }
{
    let (out, parts) = scratch.split_at_mut(width(sweep.span));
    numbers_by_rows(alloc, sweep, reads, out, parts)
}
