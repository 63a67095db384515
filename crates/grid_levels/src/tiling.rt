//! Whether the patches of a level tile its box.
ghost use Rattle.std.specs.Prelude.{◌≡◌, ◌<◌, ◌^◌, ◌↔◌, IsTrue, All, AllPairs, Any, length};
ghost use Rattle.std.specs.List.{sum_by};
ghost use Rattle.uts_geom.specs.Spans.{is_inside, indexes_of};
ghost use Rattle.uts_geom.specs.declared.index.Index.{Index};
ghost use Rattle.problem_types.specs.Levels.{HasNearBounds, IsProper, LiesIn, AreApart, IsTiled, KeepsGridLimits, cells_of};

use crate::apart::are_all_apart;
use crate::boxes::{are_proper, lie_in};
use problem_types::{BoxLine, Level, cells, level_box};
use uts_geom::{indexes_stand_once, spans_hold_their_indexes, volume};

/// How many cells the patches have together.
fn volume_of_all(patches: &[BoxLine]) -> u64
    requires near { All HasNearBounds patches.now }
    requires few { sum_by (λ q. length (indexes_of (cells_of q))) patches.now < 2 ^ 64 }
    ensures { result ≡ sum_by (λ q. length (indexes_of (cells_of q))) patches.now }
{
    let mut total = 0;
    for patch in patches {
        total += volume(cells(*patch));
    }
    total
}

/// Whether each cell of the box lies in a patch, where the patches lie in the box and share no cell.
fn is_filled(patches: &[BoxLine], outer: BoxLine) -> bool
    requires near { All HasNearBounds patches.now }
    requires outer_near { HasNearBounds outer }
    requires inside { All (λ q. LiesIn (cells_of q) (cells_of outer)) patches.now }
    requires apart { AllPairs (λ q r. AreApart (cells_of q) (cells_of r)) patches.now }
    ensures { IsTrue result ↔ ((i : Index) → IsTrue (is_inside (cells_of outer) i) → Any (λ q. IsTrue (is_inside (cells_of q) i)) patches.now) }
{
    spans_hold_their_indexes();
    indexes_stand_once();
    let room = volume(cells(outer));
    volume_of_all(patches) == room
}

/// Whether the patches tile the box.
fn tile(patches: &[BoxLine], outer: BoxLine) -> bool
    requires near { All HasNearBounds patches.now }
    requires outer_near { HasNearBounds outer }
    ensures { IsTrue result ↔ (All IsProper patches.now × All (λ q. LiesIn (cells_of q) (cells_of outer)) patches.now
        × AllPairs (λ q r. AreApart (cells_of q) (cells_of r)) patches.now
        × ((i : Index) → IsTrue (is_inside (cells_of outer) i) → Any (λ q. IsTrue (is_inside (cells_of q) i)) patches.now)) }
{
    are_proper(patches)
        && lie_in(patches, outer)
        && are_all_apart(patches)
        && is_filled(patches, outer)
}

/// Whether the patches tile the level's box.
pub(crate) fn is_tiled(level: &Level) -> bool
    requires { KeepsGridLimits level.now }
    ensures { IsTrue result ↔ IsTiled level.now }
{
    are_proper(level.boxes.as_slice()) && tile(level.patches.as_slice(), level_box(level))
}
