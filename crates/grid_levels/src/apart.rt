//! Patches that share no cell.
ghost use Rattle.std.specs.Prelude.{◌↔◌, IsTrue, All, AllPairs};
ghost use Rattle.problem_types.specs.Levels.{HasNearBounds, AreApart, cells_of};

use crate::spans::are_apart;
use problem_types::{BoxLine, cells};

/// Whether a patch shares no cell with one of the others.
fn is_apart_from_each(others: &[BoxLine], patch: BoxLine) -> bool
    requires near { All HasNearBounds others.now }
    requires patch_near { HasNearBounds patch }
    ensures { IsTrue result ↔ All (λ q. AreApart (cells_of q) (cells_of patch)) others.now }
{
    let patch = cells(patch);
    for other in others {
        if !are_apart(cells(*other), patch) {
            return false;
        }
    }
    true
}

/// Whether no two of the patches share a cell.
pub(crate) fn are_all_apart(patches: &[BoxLine]) -> bool
    requires { All HasNearBounds patches.now }
    ensures { IsTrue result ↔ AllPairs (λ q r. AreApart (cells_of q) (cells_of r)) patches.now }
{
    for i in 0..patches.len() {
        if !is_apart_from_each(&patches[..i], patches[i]) {
            return false;
        }
    }
    true
}
