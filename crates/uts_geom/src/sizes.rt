//! How many indexes a span has, and in which order. Coordinates lie from -65,536 to 65,536.
ghost use Rattle.std.specs.Prelude.{◌≡◌, ◌≤◌, ◌*◌, IsTrue, length, slice_get, Some};
ghost use Rattle.std.specs.Int.{int_gap};
ghost use Rattle.uts_geom.specs.Spans.{is_inside, indexes_of, rows_of, IsNearNumber, IsNearSpan};

use crate::{Index, Span};

/// How many numbers there are from `low` up to, and without, `high`.
pub(crate) fn extent(low: i64, high: i64) -> u64
    requires low_near { IsNearNumber low }
    requires high_near { IsNearNumber high }
    ensures extent { result ≡ int_gap low high }
    ensures small { result ≤ 131072 }
{
    if low < high { (high - low) as u64 } else { 0 }
}

/// How many rows the span has.
pub(crate) fn row_count(s: Span) -> u64
    requires { IsNearSpan s }
    ensures rows { result ≡ length (rows_of s) }
    ensures small { result ≤ 131072 * 131072 }
{
    let height = extent(s.lo.y, s.hi.y);
    let depth = extent(s.lo.z, s.hi.z);
    if s.lo.x < s.hi.x { height * depth } else { 0 }
}

/// How many indexes the span has.
pub fn volume(s: Span) -> u64
    requires { IsNearSpan s }
    ensures { result ≡ length (indexes_of s) }
{
    let width = extent(s.lo.x, s.hi.x);
    let height = extent(s.lo.y, s.hi.y);
    let depth = extent(s.lo.z, s.hi.z);
    width * (height * depth)
}

/// The place of an index among those of its span, where x goes fastest, then y, then z.
pub fn offset_in(s: Span, i: Index) -> usize
    requires near { IsNearSpan s }
    requires inside { IsTrue (is_inside s i) }
    ensures { slice_get (indexes_of s) result ≡ Some i }
{
    let width = extent(s.lo.x, s.hi.x);
    let height = extent(s.lo.y, s.hi.y);
    let x = extent(s.lo.x, i.x);
    let y = extent(s.lo.y, i.y);
    let z = extent(s.lo.z, i.z);
    (x + width * (y + height * z)) as usize
}
