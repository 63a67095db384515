//! Fields with a kernel's numbers.
ghost use Rattle.std.specs.Prelude.{◌≡◌, ◌≤◌, length, if◌then◌else◌};
ghost use Rattle.uts_geom.specs.Spans.{width_of};
ghost use Rattle.kernel_ast.specs.Size.{depth_of};
ghost use Rattle.kernel_rows.specs.Scratch.{scratch_of};
ghost use Rattle.field_box.specs.Fields.{number_at as number_of, IsField, IsRow};
ghost use Rattle.field_box.specs.WalkedRows.{is_in_row};
ghost use Rattle.kernel_sweeps.specs.Room.{room_on};
ghost use Rattle.kernel_sweeps.specs.Sweeps.{number_at};

use crate::{Sweep, fill_row, width};
use field_box::Field;
use kernel_rows::Reads;
use uts_geom::rows;

/// Gives the row of a field at y and z the kernel's numbers. The others stay.
fn set_along<R: Reads>(
    sweep: &Sweep,
    at: (i64, i64),
    reads: &R,
    field: &mut Field,
    out: &mut [i64],
    scratch: &mut [i64],
)
    requires span { field.old.span ≡ sweep.now.span }
    requires row { IsRow sweep.now.span at }
    requires places { length out.old ≡ width_of sweep.now.span }
    requires room { scratch_of (width_of sweep.now.span) (depth_of sweep.now.kernel.now) ≤ length scratch.old }
    ensures { IsField sweep.now.span (λ i. if is_in_row at.0 at.1 i
        then number_at sweep.now (R.numbers reads.now) (R.reductions reads.now) i
        else number_of field.old i) field.new }
{
    let (y, z) = at;
    fill_row(sweep, y, z, reads, out, scratch);
    field.set_row(y, z, out);
}

/// Gives a field on the sweep's span the kernel's numbers, row by row.
fn set_by_rows<R: Reads>(
    sweep: &Sweep,
    reads: &R,
    field: &mut Field,
    out: &mut [i64],
    scratch: &mut [i64],
)
    requires span { field.old.span ≡ sweep.now.span }
    requires places { length out.old ≡ width_of sweep.now.span }
    requires room { scratch_of (width_of sweep.now.span) (depth_of sweep.now.kernel.now) ≤ length scratch.old }
    ensures { IsField sweep.now.span (number_at sweep.now (R.numbers reads.now) (R.reductions reads.now)) field.new }
{
    for at in rows(sweep.span) {
        set_along(sweep, at, reads, field, out, scratch);
    }
}

/// Gives a field on the sweep's span the kernel's numbers, row by row. What stands in `scratch` before does not matter. It takes no
/// memory.
pub fn fill_field<R: Reads>(sweep: &Sweep, reads: &R, field: &mut Field, scratch: &mut [i64])
    requires span { field.old.span ≡ sweep.now.span }
    requires room { room_on sweep.now.kernel.now sweep.now.span ≤ length scratch.old }
    ensures { IsField sweep.now.span (number_at sweep.now (R.numbers reads.now) (R.reductions reads.now)) field.new }
{
    let (out, parts) = scratch.split_at_mut(width(sweep.span));
    set_by_rows(sweep, reads, field, out, parts);
}
