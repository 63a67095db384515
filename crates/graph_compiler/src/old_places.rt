//! Where a variable on a level and a material stands among all that might stand for the step before.
ghost use Rattle.std.specs.Prelude.{◌≡◌, ◌+◌, ◌<◌, ◌≤◌, Some, ℕ, length, slice_get};
ghost use Rattle.std.specs.List.{sum_by};
ghost use Rattle.uts_geom.specs.Spans.{counted};
ghost use Rattle.problem_types.specs.declared.problem.Var.{Var};
ghost use Rattle.task_check.specs.Bounds.{IsBounded};
ghost use Rattle.task_check.specs.Plan.{Old, old_variables, patches_of};

use crate::details::patch_count;
use problem_types::Problem;

/// How many patches the levels below this one have together.
fn patches_below(p: &Problem, level: u32) -> usize
    requires limits { IsBounded p.now }
    requires few { level ≤ 4 }
    ensures count { result ≡ sum_by (λ l. length (patches_of p.now l)) (counted 0 level) }
    ensures few { result ≤ 4096 }
{
    let mut total = 0;
    for below in 0..level {
        total += patch_count(p, below) as usize;
    }
    total
}

/// Where the patches of a level stand for a variable, by its place, and a material.
pub(crate) fn old_place(p: &Problem, var: usize, level: u32, material: u32) -> usize
    requires limits { IsBounded p.now }
    requires var { var < length p.now.vars }
    requires level { level < length p.now.levels }
    requires material { material < p.now.materials.value }
    ensures place { (v : Var) (patch : ℕ) → slice_get p.now.vars var ≡ Some v → patch < length (patches_of p.now level)
        → slice_get (old_variables p.now) (result + patch) ≡ Some (Old v.name level material patch) }
    ensures few { result ≤ 4194304 }
{
    let materials = p.materials.value as usize;
    let all = patches_below(p, p.levels.len() as u32);
    let on_level = patch_count(p, level) as usize;
    var * (materials * all) + (materials * patches_below(p, level) + material as usize * on_level)
}
