//! The rows of a span, one after another.
ghost use Rattle.std.specs.Prelude.{◌≡◌, ◌<◌, length, slice_get, Some};
ghost use Rattle.std.specs.Iterator.{YieldsFirst, item_count};
ghost use Rattle.uts_geom.specs.Spans.{IsNearSpan, rows_of};
ghost use Rattle.uts_geom.specs.Rows.{rows_left};

use crate::Span;
use crate::row_walk::Rows;
use crate::sizes::{extent, row_count};

/// The rows of the span, each as its y and z: z outermost, both ascending, and none where the span has no indexes.
pub fn rows(s: Span) -> Rows
    requires { IsNearSpan s }
    ensures { rows_left result ≡ rows_of s }
{
    Rows {
        span: s,
        total: row_count(s),
        done: 0,
    }
}

/// The row with this number.
fn row_at(s: Span, k: u64) -> (i64, i64)
    requires near { IsNearSpan s }
    requires below { k < length (rows_of s) }
    ensures { slice_get (rows_of s) k ≡ Some result }
{
    let height = extent(s.lo.y, s.hi.y);
    let y = (k % height) as i64;
    let z = (k / height) as i64;
    (s.lo.y + y, s.lo.z + z)
}

impl Iterator for Rows {
    type Item = (i64, i64);

    ghost next_gives = { YieldsFirst rows_left };

    ghost remaining = { item_count rows_left };

    fn next(&mut self) -> Option<(i64, i64)> {
        if self.done >= self.total {
            return None;
        }
        let row = row_at(self.span, self.done);
        self.done += 1;
        Some(row)
    }
}
