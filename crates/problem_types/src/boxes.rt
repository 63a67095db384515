//! Boxes and patches, whose coordinates are at most 4,096, as spans of cells.
ghost use Rattle.std.specs.Prelude.{◌≡◌, ◌∷◌, []};
ghost use Rattle.uts_geom.specs.Spans.{IsNearSpan};
ghost use Rattle.problem_types.specs.Levels.{HasNearBounds, KeepsGridLimits, cells_of};

use crate::{BoxLine, Level};
use uts_geom::{Index, Span};

/// The line of the level's only box.
pub fn level_box(level: &Level) -> BoxLine
    requires { KeepsGridLimits level.now }
    ensures only { level.now.boxes ≡ result ∷ [] }
    ensures near { HasNearBounds result }
{
    level.boxes.as_slice()[0]
}

/// The cells of a box or of a patch, half-open on each axis.
pub fn cells(b: BoxLine) -> Span
    requires { HasNearBounds b }
    ensures cells { result ≡ cells_of b }
    ensures near { IsNearSpan result }
{
    Span {
        lo: Index {
            x: b.lo[0] as i64,
            y: b.lo[1] as i64,
            z: b.lo[2] as i64,
        },
        hi: Index {
            x: b.hi[0] as i64,
            y: b.hi[1] as i64,
            z: b.hi[2] as i64,
        },
    }
}
