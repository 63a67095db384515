//! Boxes and patches as spans. Coordinates of a level are at most 4,096.
ghost use Rattle.std.specs.Prelude.{◌≡◌, ◌<◌, ◌≤◌, ◌∷◌, [], length, pos, slice_index};
ghost use Rattle.uts_geom.specs.Spans.{index};
ghost use Rattle.problem_types.specs.Levels.{HasNearBounds, KeepsGridLimits, cells_of};
ghost use Rattle.problem_types.specs.Regions.{end_of, spaces_on};
ghost use Rattle.patch_regions.specs.Regions.{patch_at, reaching};

use problem_types::{BoxLine, Level, cells, level_box};
use uts_geom::{Axis, Centring, Index, Span, point_like};

/// An index by its coordinates.
fn at(x: i64, y: i64, z: i64) -> Index
    ensures { result ≡ index x y z }
{
    Index { x, y, z }
}

/// Where a span ends on an axis: a point-like one holds the high bound besides.
fn end(point: bool, high: u64) -> i64
    requires { high ≤ 4096 }
    ensures { result ≡ end_of point high }
{
    if point {
        (high + 1) as i64
    } else {
        high as i64
    }
}

fn low_corner(b: BoxLine) -> Index
    requires { HasNearBounds b }
    ensures { result ≡ index (pos (slice_index b.lo 0)) (pos (slice_index b.lo 1)) (pos (slice_index b.lo 2)) }
{
    at(
        end(false, b.lo[0]),
        end(false, b.lo[1]),
        end(false, b.lo[2]),
    )
}

/// The cells of a box or a patch, and its high bound besides on the axes that say so.
pub(crate) fn reaching(b: BoxLine, x: bool, y: bool, z: bool) -> Span
    requires { HasNearBounds b }
    ensures { result ≡ reaching b x y z }
{
    Span {
        lo: low_corner(b),
        hi: at(end(x, b.hi[0]), end(y, b.hi[1]), end(z, b.hi[2])),
    }
}

/// How many patches the level has. Their numbers are those below it.
pub fn patch_count(level: &Level) -> u32
    requires { length level.now.patches ≤ 1024 }
    ensures count { result ≡ length level.now.patches }
    ensures few { result ≤ 1024 }
{
    level.patches.len() as u32
}

/// The line of a patch.
pub fn patch_line(level: &Level, patch: u32) -> BoxLine
    requires limits { KeepsGridLimits level.now }
    requires patch { patch < length level.now.patches }
    ensures line { result ≡ patch_at level.now patch }
    ensures near { HasNearBounds result }
{
    level.patches.as_slice()[patch as usize]
}

/// The cells of a patch.
pub fn patch_box(level: &Level, patch: u32) -> Span
    requires limits { KeepsGridLimits level.now }
    requires patch { patch < length level.now.patches }
    ensures { result ≡ cells_of (patch_at level.now patch) }
{
    cells(patch_line(level, patch))
}

/// The index space of the level's box, half-open on each axis: the box's cells, and on the axes on which the centring is
/// point-like the high bound besides. Its indexes are listed with x fastest, then y, then z.
pub fn index_space(level: &Level, c: Centring) -> Span
    requires { KeepsGridLimits level.now }
    ensures { spaces_on c level.now ≡ result ∷ [] }
{
    reaching(
        level_box(level),
        point_like(c, Axis::X),
        point_like(c, Axis::Y),
        point_like(c, Axis::Z),
    )
}
