//! Indexes and spans of a finer level.
ghost use Rattle.std.specs.Prelude.{◌≡◌, ◌≤◌, ◌+ℤ◌, ◌*ℤ◌, ◌≤ℤ◌, nat_abs, pos, negsuc, length, if◌then◌else◌};
ghost use Rattle.uts_geom.specs.Spans.{index, indexes_of, IsNear, IsNearNumber, IsNearSpan};
ghost use Rattle.task_check.specs.Plan.{refined};
ghost use Rattle.refine_coarsen.specs.Levels.{children_at, span_of_children, IsRatio};

use uts_geom::{Axis, Centring, Index, Span, point_like};

/// The first coordinate of the next finer level that one stands for.
fn fine(n: i64, ratio: i64) -> i64
    requires ratio { IsRatio ratio }
    requires near { IsNearNumber n }
    ensures fine { result ≡ pos (nat_abs ratio) *ℤ n }
    ensures low { negsuc 262143 ≤ℤ result }
    ensures high { result ≤ℤ pos 262144 }
{
    match ratio {
        2 => 2 * n,
        _ => 4 * n,
    }
}

/// Where the window over a patch that ends at a coordinate ends on the next finer level: one further where the points there count besides.
fn fine_end(n: i64, ratio: i64, point: bool) -> i64
    requires ratio { IsRatio ratio }
    requires near { IsNearNumber n }
    ensures { result ≡ pos (nat_abs ratio) *ℤ n +ℤ (if point then pos 1 else pos 0) }
{
    fine(n, ratio) + i64::from(point)
}

/// How many coordinates of the next finer level one stands for.
fn child_width(ratio: i64, point: bool) -> i64
    ensures { result ≡ (if point then pos 1 else ratio) }
{
    if point { 1 } else { ratio }
}

/// Where the coordinates of the next finer level that one stands for end.
fn children_end(n: i64, ratio: i64, point: bool) -> i64
    requires ratio { IsRatio ratio }
    requires near { IsNearNumber n }
    ensures { result ≡ pos (nat_abs ratio) *ℤ n +ℤ (if point then pos 1 else ratio) }
{
    fine(n, ratio) + child_width(ratio, point)
}

/// The first index of the next finer level that one stands for.
fn fine_index(i: Index, ratio: i64) -> Index
    requires ratio { IsRatio ratio }
    requires near { IsNear i }
    ensures { result ≡ index (pos (nat_abs ratio) *ℤ i.x) (pos (nat_abs ratio) *ℤ i.y) (pos (nat_abs ratio) *ℤ i.z) }
{
    Index {
        x: fine(i.x, ratio),
        y: fine(i.y, ratio),
        z: fine(i.z, ratio),
    }
}

/// What a task sees of the next finer level around a patch: the patch refined by the ratio, and on the axes where the centring is
/// point-like the points at its high end besides.
pub fn fine_span(patch: Span, ratio: i64, c: Centring) -> Span
    requires ratio { IsRatio ratio }
    requires near { IsNearSpan patch }
    ensures { result ≡ refined c (nat_abs ratio) patch }
{
    Span {
        lo: fine_index(patch.lo, ratio),
        hi: Index {
            x: fine_end(patch.hi.x, ratio, point_like(c, Axis::X)),
            y: fine_end(patch.hi.y, ratio, point_like(c, Axis::Y)),
            z: fine_end(patch.hi.z, ratio, point_like(c, Axis::Z)),
        },
    }
}

/// The span of the children of an index.
fn children_span(i: Index, ratio: i64, c: Centring) -> Span
    requires ratio { IsRatio ratio }
    requires near { IsNear i }
    ensures { result ≡ span_of_children ratio c i }
{
    Span {
        lo: fine_index(i, ratio),
        hi: Index {
            x: children_end(i.x, ratio, point_like(c, Axis::X)),
            y: children_end(i.y, ratio, point_like(c, Axis::Y)),
            z: children_end(i.z, ratio, point_like(c, Axis::Z)),
        },
    }
}

/// The children of an index on the next finer level: as many as the ratio on each axis where the centring is interval-like, and one where
/// it is point-like. The finer level need not have them all.
pub fn children(i: Index, ratio: i64, c: Centring) -> Span
    requires ratio { IsRatio ratio }
    requires near { IsNear i }
    ensures indexes { indexes_of result ≡ children_at (nat_abs ratio) c i }
    ensures few { length (indexes_of result) ≤ 64 }
{
    children_span(i, ratio, c)
}
