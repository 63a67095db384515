//! What a patch owns.
ghost use Rattle.std.specs.Prelude.{◌≡◌, ◌<◌, length};
ghost use Rattle.uts_geom.specs.Spans.{is_inside};
ghost use Rattle.problem_types.specs.Levels.{HasNearBounds, KeepsGridLimits, cells_of};
ghost use Rattle.patch_regions.specs.Regions.{box_of, owned_in, owned_span};

use crate::lines::{patch_line, reaching};
use problem_types::{BoxLine, Level};
use uts_geom::{Axis, Centring, Span, point_like};

/// Whether the box's cells hold the patch's low corner.
fn starts_in(b: BoxLine, patch: BoxLine) -> bool
    ensures { result ≡ is_inside (cells_of b) (cells_of patch).lo }
{
    b.lo[0] <= patch.lo[0]
        && patch.lo[0] < b.hi[0]
        && b.lo[1] <= patch.lo[1]
        && patch.lo[1] < b.hi[1]
        && b.lo[2] <= patch.lo[2]
        && patch.lo[2] < b.hi[2]
}

/// The box in which the patch lies.
fn box_of(boxes: &[BoxLine], patch: BoxLine) -> BoxLine
    ensures { result ≡ box_of boxes.now patch }
{
    for b in boxes {
        if starts_in(*b, patch) {
            return *b;
        }
    }
    patch
}

/// What a patch of the box owns.
fn owned_in(c: Centring, b: BoxLine, patch: BoxLine) -> Span
    requires { HasNearBounds patch }
    ensures { result ≡ owned_in c b patch }
{
    reaching(
        patch,
        point_like(c, Axis::X) && patch.hi[0] == b.hi[0],
        point_like(c, Axis::Y) && patch.hi[1] == b.hi[1],
        point_like(c, Axis::Z) && patch.hi[2] == b.hi[2],
    )
}

/// What the patch owns: its cells' coordinates on each axis, and its high bound besides where the centring is point-like on the axis
/// and the patch ends where its box does.
pub fn owned(level: &Level, patch: u32, c: Centring) -> Span
    requires limits { KeepsGridLimits level.now }
    requires patch { patch < length level.now.patches }
    ensures { result ≡ owned_span c level.now patch }
{
    let line = patch_line(level, patch);
    owned_in(c, box_of(level.boxes.as_slice(), line), line)
}
