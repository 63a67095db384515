//! Spans beside one another.
ghost use Rattle.std.specs.Prelude.{◌≤ℤ◌, ◌↔◌, IsTrue};
ghost use Rattle.uts_geom.specs.Spans.{is_inside};
ghost use Rattle.problem_types.specs.Levels.{LiesIn, AreApart};

use uts_geom::{Span, do_meet, spans_meet_in_indexes};

/// Whether the numbers `low` and `high` lie from `from` up to `to`.
fn is_within(low: i64, high: i64, from: i64, to: i64) -> bool
    ensures { IsTrue result ↔ ((from ≤ℤ low) × (high ≤ℤ to)) }
{
    from <= low && high <= to
}

/// Whether each index of a span that has some is one of the other.
pub(crate) fn lies_in(inner: Span, outer: Span) -> bool
    requires { IsTrue (is_inside inner inner.lo) }
    ensures { IsTrue result ↔ LiesIn inner outer }
{
    let x = is_within(inner.lo.x, inner.hi.x, outer.lo.x, outer.hi.x);
    let y = is_within(inner.lo.y, inner.hi.y, outer.lo.y, outer.hi.y);
    let z = is_within(inner.lo.z, inner.hi.z, outer.lo.z, outer.hi.z);
    x && y && z
}

/// Whether the spans have no index in common.
pub(crate) fn are_apart(a: Span, b: Span) -> bool
    ensures { IsTrue result ↔ AreApart a b }
{
    spans_meet_in_indexes();
    !do_meet(a, b)
}
