//! Which patch owns an index.
ghost use Rattle.std.specs.Prelude.{◌≡◌, ◌↔◌, ℕ, Some, IfSome, IsNone, IsFalse};
ghost use Rattle.uts_geom.specs.declared.index.Index.{Index};
ghost use Rattle.problem_types.specs.Levels.{IsTiled, KeepsGridLimits, is_on_level};
ghost use Rattle.patch_regions.specs.Regions.{Owns};

use crate::laws::owned_spans_tile;
use crate::lines::patch_count;
use crate::ownership::owned;
use problem_types::Level;
use uts_geom::{Centring, Index, contains};

/// A patch that owns the index, if there is one.
pub(crate) fn some_owner(level: &Level, c: Centring, i: Index) -> Option<u32>
    requires { KeepsGridLimits level.now }
    ensures owns { IfSome result (λ patch. Owns c level.now patch i) }
    ensures none { IsNone result → (patch : ℕ) → Owns c level.now patch i → ⊥ }
{
    for patch in 0..patch_count(level) {
        if contains(owned(level, patch, c), i) {
            return Some(patch);
        }
    }
    None
}

/// The patch that owns the index, `None` where the index lies outside the level's index space.
pub fn owner(level: &Level, c: Centring, i: Index) -> Option<u32>
    requires tiled { IsTiled level.now }
    requires limits { KeepsGridLimits level.now }
    ensures owner { (patch : ℕ) → (result ≡ Some patch) ↔ Owns c level.now patch i }
    ensures outside { IsNone result ↔ IsFalse (is_on_level c level.now i) }
{
    owned_spans_tile();
    some_owner(level, c, i)
}
