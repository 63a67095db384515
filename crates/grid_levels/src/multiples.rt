//! Bounds that are multiples of a ratio.
ghost use Rattle.std.specs.Prelude.{◌≡◌, ◌<◌, ◌%◌, ◌↔◌, IsTrue, All};
ghost use Rattle.grid_levels.specs.Good.{HasMultiples, AreMultiples};

use problem_types::{BoxLine, Level};

/// Whether a pair of bounds are multiples.
fn are_both(ratio: u64, low: u64, high: u64) -> bool
    requires { 0 < ratio }
    ensures { IsTrue result ↔ ((low % ratio ≡ 0) × (high % ratio ≡ 0)) }
{
    low % ratio == 0 && high % ratio == 0
}

fn has_multiples(ratio: u64, b: BoxLine) -> bool
    requires { 0 < ratio }
    ensures { IsTrue result ↔ HasMultiples ratio b }
{
    are_both(ratio, b.lo[0], b.hi[0])
        && are_both(ratio, b.lo[1], b.hi[1])
        && are_both(ratio, b.lo[2], b.hi[2])
}

fn have_multiples(ratio: u64, boxes: &[BoxLine]) -> bool
    requires { 0 < ratio }
    ensures { IsTrue result ↔ All (HasMultiples ratio) boxes.now }
{
    for b in boxes {
        if !has_multiples(ratio, *b) {
            return false;
        }
    }
    true
}

/// Whether the bounds of the level's box and patches are multiples of its ratio.
pub(crate) fn are_multiples(level: &Level) -> bool
    requires { 0 < level.now.ratio }
    ensures { IsTrue result ↔ AreMultiples level.now }
{
    have_multiples(level.ratio, level.boxes.as_slice())
        && have_multiples(level.ratio, level.patches.as_slice())
}
