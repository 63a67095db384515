//! Boxes and patches, whose coordinates are at most 4,096, as spans of cells.
ghost use Rattle.std.specs.Prelude.{◌≡◌, ◌<◌, ◌↔◌, IsTrue, All};
ghost use Rattle.uts_geom.specs.Spans.{is_inside, IsNearSpan};
ghost use Rattle.problem_types.specs.Levels.{HasNearBounds, IsProper, LiesIn, cells_of};
ghost use Rattle.grid_levels.specs.Good.{divided};

use crate::spans::lies_in;
use problem_types::{BoxLine, cells};
use uts_geom::{Index, Span};

/// The cells of a box, its bounds divided by a ratio, rounded down.
pub fn divided(b: BoxLine, ratio: u64) -> Span
    requires near { HasNearBounds b }
    requires some { 0 < ratio }
    ensures divided { result ≡ divided ratio (cells_of b) }
    ensures near { IsNearSpan result }
{
    Span {
        lo: Index {
            x: (b.lo[0] / ratio) as i64,
            y: (b.lo[1] / ratio) as i64,
            z: (b.lo[2] / ratio) as i64,
        },
        hi: Index {
            x: (b.hi[0] / ratio) as i64,
            y: (b.hi[1] / ratio) as i64,
            z: (b.hi[2] / ratio) as i64,
        },
    }
}

/// Whether the low bounds are below the high ones.
fn is_proper(b: BoxLine) -> bool
    ensures { IsTrue result ↔ IsProper b }
{
    b.lo[0] < b.hi[0] && b.lo[1] < b.hi[1] && b.lo[2] < b.hi[2]
}

pub(crate) fn are_proper(boxes: &[BoxLine]) -> bool
    ensures { IsTrue result ↔ All IsProper boxes.now }
{
    boxes.iter().all(|b| is_proper(*b))
}

/// Whether each of the patches lies in the box.
pub(crate) fn lie_in(patches: &[BoxLine], outer: BoxLine) -> bool
    requires near { All HasNearBounds patches.now }
    requires proper { All IsProper patches.now }
    requires outer_near { HasNearBounds outer }
    ensures { IsTrue result ↔ All (λ q. LiesIn (cells_of q) (cells_of outer)) patches.now }
{
    let outer = cells(outer);
    for patch in patches {
        if !lies_in(cells(*patch), outer) {
            return false;
        }
    }
    true
}
