//! Which patches a span touches.
ghost use Rattle.std.specs.Prelude.{◌≡◌, ◌++◌, ◌∷◌, [], IfOk, OnOk, if◌then◌else◌};
ghost use Rattle.problem_types.specs.Levels.{KeepsGridLimits};
ghost use Rattle.patch_regions.specs.Regions.{touching_patches};

use crate::lines::patch_count;
use crate::ownership::owned;
use problem_types::{Level, NoMemory};
use std::alloc::{AllocError, Global};
use uts_geom::{Centring, Span, do_meet};

// Puts the patch at the end where it touches.
fn put_if(touches: bool, patch: u32, found: &mut Vec<u32>) -> Result<(), AllocError>
    ensures { OnOk result (found.new.items ≡ found.old.items ++ (if touches then patch ∷ [] else [])) }
{
    if touches {
        found.push(patch)?;
    }
    Ok(())
}

/// The patches that own an index of the half-open span, by ascending number, each once. A span without indexes touches none.
pub fn touching(alloc: Global, level: &Level, c: Centring, s: Span) -> Result<Vec<u32>, NoMemory>
    requires { KeepsGridLimits level.now }
    ensures { IfOk result (λ found. found.items ≡ touching_patches c level.now s) }
{
    let mut found = Vec::new(alloc);
    for patch in 0..patch_count(level) {
        put_if(do_meet(owned(level, patch, c), s), patch, &mut found)?;
    }
    Ok(found)
}
