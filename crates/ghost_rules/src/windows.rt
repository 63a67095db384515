//! The window of a patch.
ghost use Rattle.std.specs.Prelude.{◌≡◌, ◌≤◌, ◌+ℤ◌, false};
ghost use Rattle.uts_geom.specs.Spans.{IsNearNumber, IsNearSpan};
ghost use Rattle.ghost_rules.specs.Windows.{AreFew, along, window_begin, window_end, window_of};

use crate::along::Along;
use problem_types::{Ghost, GhostKind};
use uts_geom::{Axis, Centring, Index, Span, point_like};

/// What the layers lie around on an axis.
pub(crate) fn along(layers: Ghost, axis: Axis) -> Along
    ensures { result ≡ along layers axis }
{
    match (layers.kind, axis) {
        (GhostKind::None, _) => Along::Nothing,
        (GhostKind::Nodes, _)
        | (GhostKind::FaceX, Axis::X)
        | (GhostKind::FaceY, Axis::Y)
        | (GhostKind::FaceZ, Axis::Z) => Along::Points(layers.n),
        _ => Along::Intervals(layers.n),
    }
}

/// Where a window begins on an axis, above the low bound of its patch.
fn window_begin(a: Along, point: bool) -> i64
    requires { AreFew a }
    ensures { result ≡ window_begin a point }
{
    match a {
        Along::Nothing | Along::Own => 0,
        Along::Intervals(n) => i64::from(point) - n as i64,
        Along::Points(n) => -(n as i64),
    }
}

/// Where a window of ghost data ends on an axis, above the high bound of its patch.
fn window_end(a: Along, point: bool) -> i64
    requires { AreFew a }
    ensures { result ≡ window_end a point false }
{
    match a {
        Along::Own => 0,
        Along::Nothing => i64::from(point),
        Along::Intervals(n) => n as i64,
        Along::Points(n) => n as i64 + i64::from(point),
    }
}

/// The bounds of the window of a patch on an axis.
fn bounds(a: Along, point: bool, low: i64, high: i64) -> (i64, i64)
    requires few { AreFew a }
    requires low_near { IsNearNumber low }
    requires high_near { IsNearNumber high }
    ensures { result ≡ (low +ℤ window_begin a point, high +ℤ window_end a point false) }
{
    (low + window_begin(a, point), high + window_end(a, point))
}

/// The indexes that a task sees of a variable whose numbers lie so, around a patch with these layers. Those outside the
/// index space are among them.
pub fn window(layers: Ghost, c: Centring, patch: Span) -> Span
    requires few { layers.n ≤ 8 }
    requires near { IsNearSpan patch }
    ensures { result ≡ window_of layers c patch }
{
    let Span { lo, hi } = patch;
    let x = bounds(along(layers, Axis::X), point_like(c, Axis::X), lo.x, hi.x);
    let y = bounds(along(layers, Axis::Y), point_like(c, Axis::Y), lo.y, hi.y);
    let z = bounds(along(layers, Axis::Z), point_like(c, Axis::Z), lo.z, hi.z);
    Span {
        lo: Index {
            x: x.0,
            y: y.0,
            z: z.0,
        },
        hi: Index {
            x: x.1,
            y: y.1,
            z: z.1,
        },
    }
}
