//! Reads along a row.
ghost use Rattle.std.specs.Prelude.{◌≡◌, pos, length, map, replicate, IfSome};
ghost use Rattle.std.specs.Int.{int_gap};
ghost use Rattle.kernel_rows.specs.Values.{indexes_on};
ghost use Rattle.field_box.specs.Fields.{HoldsAlong};
ghost use Rattle.uts_geom.specs.Spans.{IsNearSpan};
ghost use Rattle.problem_types.specs.Regions.{moved, offset_of};
ghost use Rattle.kernel_eval.specs.Environments.{number_given, number_in_part, number_read};
ghost use Rattle.kernel_eval.specs.WholeRows.{IsWholeRow};

use crate::lookups::{number_given, part_of};
use crate::numbers::{moved_into, number_in_part};
use crate::{Part, Windows};
use kernel_ast::{How, Read, Store};
use kernel_rows::{KernelRow, Reads};
use uts_geom::{Index, Span};

/// Makes each number 0.
fn fill_with_zero(out: &mut [i64])
    ensures { out.new ≡ replicate (length out.old) (pos 0) }
{
    out.fill(0);
}

/// Fills `out` with the numbers of a read in a part along a row, index by index.
fn fill_each(part: &Part, read: &Read, row: KernelRow, out: &mut [i64])
    requires { length out.old ≡ int_gap row.low row.high }
    ensures { out.new ≡ map (number_in_part part.now read.now.how read.now.offset) (indexes_on row) }
{
    let mut x = row.low;
    for place in out.iter_mut() {
        let i = Index {
            x,
            y: row.y,
            z: row.z,
        };
        *place = number_in_part(part, read.how, read.offset, i);
        x += 1;
    }
}

/// The index by an offset away, where a span holds it and so many indexes from it on along x.
fn row_within(s: Span, start: Index, by: [i64; 3], count: usize) -> Option<Index>
    requires { IsNearSpan s }
    ensures begins { IfSome result (λ first. first ≡ moved start (offset_of by)) }
    ensures held { IfSome result (λ first. HoldsAlong s first count) }
{
    let first = moved_into(s, start, by)?;
    if count as u64 <= first.x.abs_diff(s.hi.x) {
        Some(first)
    } else {
        None
    }
}

/// Where the numbers of a read along a row stand together in the part's window, if they do and the read is of the own level.
fn whole_row(part: &Part, read: &Read, row: KernelRow, count: usize) -> Option<Index>
    ensures { IfSome result (IsWholeRow part.now read.now row count) }
{
    let start = Index {
        x: row.low,
        y: row.y,
        z: row.z,
    };
    match read.how {
        How::Same => row_within(part.window.span(), start, read.offset, count),
        _ => None,
    }
}

/// Fills `out` with the numbers of a read in a part along a row.
fn fill_from(part: &Part, read: &Read, row: KernelRow, out: &mut [i64])
    requires { length out.old ≡ int_gap row.low row.high }
    ensures { out.new ≡ map (number_in_part part.now read.now.how read.now.offset) (indexes_on row) }
{
    match whole_row(part, read, row, out.len()) {
        Some(first) => part.window.fill(first, out),
        None => fill_each(part, read, row, out),
    }
}

impl Reads for Windows {
    ghost numbers = { number_read };

    ghost reductions = { number_given };

    fn fill(&self, read: &Read, row: KernelRow, out: &mut [i64]) {
        match part_of(&self.parts, read) {
            Some(part) => fill_from(part, read, row, out),
            None => fill_with_zero(out),
        }
    }

    fn number(&self, store: Store, name: u32) -> i64 {
        number_given(self, store, name)
    }
}
