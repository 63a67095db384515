ghost use Rattle.std.specs.Prelude.{◌≡◌, ◌&&◌};
ghost use Rattle.uts_geom.specs.Spans.{is_between, is_inside, meet_of, has_indexes, do_meet};
ghost use Rattle.uts_geom.specs.declared.index.Index.{Index};

use crate::Index;

/// The indexes from `lo` up to, and without, `hi` on each axis: none where `hi` is not above `lo` on some axis.
#[derive(Clone, Copy, Debug, PartialEq, Eq)]
pub struct Span {
    pub lo: Index,
    pub hi: Index,
}

/// Whether the number is at least `low`, and below `high`.
fn is_between(low: i64, high: i64, n: i64) -> bool
    ensures { result ≡ is_between low high n }
{
    low <= n && n < high
}

/// Whether the span holds the index.
pub fn contains(s: Span, i: Index) -> bool
    ensures { result ≡ is_inside s i }
{
    is_between(s.lo.x, s.hi.x, i.x)
        && is_between(s.lo.y, s.hi.y, i.y)
        && is_between(s.lo.z, s.hi.z, i.z)
}

/// The span of the indexes that both have.
pub fn meet(a: Span, b: Span) -> Span
    ensures corners { result ≡ meet_of a b }
    ensures common { (i : Index) → is_inside result i ≡ (is_inside a i && is_inside b i) }
{
    Span {
        lo: Index {
            x: a.lo.x.max(b.lo.x),
            y: a.lo.y.max(b.lo.y),
            z: a.lo.z.max(b.lo.z),
        },
        hi: Index {
            x: a.hi.x.min(b.hi.x),
            y: a.hi.y.min(b.hi.y),
            z: a.hi.z.min(b.hi.z),
        },
    }
}

fn has_indexes(s: Span) -> bool
    ensures { result ≡ has_indexes s }
{
    s.lo.x < s.hi.x && s.lo.y < s.hi.y && s.lo.z < s.hi.z
}

/// Whether the spans have an index in common.
pub fn do_meet(a: Span, b: Span) -> bool
    ensures { result ≡ do_meet a b }
{
    has_indexes(meet(a, b))
}
