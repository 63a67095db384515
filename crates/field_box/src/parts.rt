//! Fields by rows, and parts of one field in another.
ghost use Rattle.std.specs.Prelude.{◌≡◌, ◌&&◌, IsTrue, length, map, pos, slice_index_or, if◌then◌else◌};
ghost use Rattle.std.specs.Int.{int_gap};
ghost use Rattle.std.specs.Ordering.{int_eq};
ghost use Rattle.uts_geom.specs.Spans.{index, is_inside, row_indexes, width_of, IsNearSpan};
ghost use Rattle.field_box.specs.Fields.{number_at, IsField, IsRow};
ghost use Rattle.uts_geom.specs.declared.index.Index.{Index};

use crate::Field;
use uts_geom::{Index, Span, meet, rows};

/// How many indexes a row of the span has.
pub fn width(s: Span) -> usize
    requires { IsNearSpan s }
    ensures { result ≡ width_of s }
{
    if s.lo.x < s.hi.x {
        (s.hi.x - s.lo.x) as usize
    } else {
        0
    }
}

/// The first index of a row.
fn row_start(s: Span, y: i64, z: i64) -> Index
    ensures { result ≡ index s.lo.x y z }
{
    Index { x: s.lo.x, y, z }
}

impl Field {
    /// The numbers of the row at y and z.
    pub fn row(&self, y: i64, z: i64) -> &[i64]
        requires { IsRow self.now.span (y, z) }
        ensures { result.now ≡ map (number_at self.now) (row_indexes self.now.span y z) }
    {
        let span = self.span();
        self.stretch(row_start(span, y, z), width(span))
    }

    /// Gives the row at y and z these numbers.
    pub fn set_row(&mut self, y: i64, z: i64, numbers: &[i64])
        requires row { IsRow self.old.span (y, z) }
        requires whole { length numbers.now ≡ width_of self.old.span }
        ensures { IsField self.old.span (λ i. if int_eq i.y y && int_eq i.z z
            then slice_index_or numbers.now (int_gap self.old.span.lo.x i.x) (pos 0)
            else number_at self.old i) self.new }
    {
        let span = self.span();
        self.set_stretch(row_start(span, y, z), numbers);
    }

    /// Copies the row at some y and z of a part that both fields have.
    fn copy_row(&mut self, from: &Field, part: Span, row: (i64, i64))
        requires near { IsNearSpan part }
        requires row { IsRow part row }
        requires held { (i : Index) → IsTrue (is_inside part i) → IsTrue (is_inside self.old.span i && is_inside from.now.span i) }
        ensures { IsField self.old.span (λ i. if is_inside part i && (int_eq i.y row.0 && int_eq i.z row.1)
            then number_at from.now i
            else number_at self.old i) self.new }
    {
        let (y, z) = row;
        let first = row_start(part, y, z);
        self.set_stretch(first, from.stretch(first, width(part)));
    }

    /// Copies the numbers of another field on the indexes that both have. The others stay.
    pub fn copy_part(&mut self, from: &Field)
        ensures { IsField self.old.span (λ i. if is_inside from.now.span i then number_at from.now i else number_at self.old i) self.new }
    {
        let span = self.span();
        let other = from.span();
        let part = meet(span, other);
        for at in rows(part) {
            self.copy_row(from, part, at);
        }
    }
}
