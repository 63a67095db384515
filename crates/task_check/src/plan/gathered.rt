//! Whether some task of a list gathers too many numbers.
ghost use Rattle.std.specs.Prelude.{◌≡◌, ◌≤◌, ◌<◌, ◌*◌, ◌↔◌, All, Any, Contains, IsTrue, length, nat_lt};
ghost use Rattle.std.specs.List.{list_any, sum_by};
ghost use Rattle.uts_geom.specs.Spans.{indexes_of, meet_of};
ghost use Rattle.problem_types.specs.Form.{IsProblemInForm};
ghost use Rattle.problem_types.specs.Levels.{KeepsGridLimits};
ghost use Rattle.problem_types.specs.Regions.{spaces_on};
ghost use Rattle.problem_types.specs.Lists.{task_list};
ghost use Rattle.task_rules.specs.Lines.{wanted_level};
ghost use Rattle.task_check.specs.Counts.{gathered, gathered_for};
ghost use Rattle.task_check.specs.First.{IsFaultless};
ghost use Rattle.task_check.specs.Supplies.{layers_of};
ghost use Rattle.task_check.specs.Plan.{details_of, patches_of};
ghost use Rattle.task_check.specs.Sizes.{IsTask, gathered_on, gathers_above, is_any_above};

use crate::plan::details::{part_count, patch_count, reduces_count};
use crate::plan::windows::{level_at, wanted_level, wanted_window};
use patch_regions::index_space;
use problem_lookup::{centring_of, task_list};
use problem_types::{Centring, Level, Problem, Require, Task, What};
use task_rules::wanted_name;
use uts_geom::{Span, contains, meet, volume};

/// How many indexes of a window are on the level.
fn stored_on(l: &Level, c: Centring, window: Span) -> u64
    requires { KeepsGridLimits l.now }
    ensures stored { result ≡ sum_by (λ s. length (indexes_of (meet_of window s))) (spaces_on c l.now) }
    ensures few { result ≤ 68769820673 }
{
    let stored = meet(window, index_space(l, c));
    if contains(stored, stored.lo) {
        volume(stored)
    } else {
        0
    }
}

/// How many numbers the requirement gathers for the patch.
fn gathered_for(p: &Problem, t: &Task, r: Require, level: u64, patch: u32) -> u64
    requires form { IsProblemInForm p.now }
    requires faultless { IsFaultless p.now }
    requires few_layers { layers_of r.what ≤ 8 }
    requires level { level < length p.now.levels }
    requires wanted { wanted_level r.what level < length p.now.levels }
    requires patch { patch < length (patches_of p.now level) }
    ensures count { result ≡ gathered_for p.now t.now level patch r }
    ensures few { result ≤ 68769820673 }
{
    match r.what {
        What::Number { .. } => 1,
        _ => {
            let wanted = level_at(p, wanted_level(r.what, level));
            stored_on(
                wanted,
                centring_of(p, wanted_name(r.what)),
                wanted_window(p, t, r, level, patch),
            )
        }
    }
}

/// How many numbers the requirements of the task gather for the patch.
fn gathered_on(p: &Problem, t: &Task, level: u64, patch: u32) -> u64
    requires form { IsProblemInForm p.now }
    requires faultless { IsFaultless p.now }
    requires task { IsTask p.now t.now }
    requires level { Contains t.now.levels level }
    requires patch { patch < length (patches_of p.now level) }
    ensures { result ≡ gathered_on p.now t.now level patch }
{
    let mut total = 0;
    for r in t.requirements.as_slice() {
        total += gathered_for(p, t, *r, level, patch);
    }
    total
}

/// Whether a patch of the level gathers more numbers than the limit.
fn is_patch_above(p: &Problem, t: &Task, level: u64, limit: u64) -> bool
    requires form { IsProblemInForm p.now }
    requires faultless { IsFaultless p.now }
    requires task { IsTask p.now t.now }
    requires level { Contains t.now.levels level }
    ensures { result ≡ list_any (λ patch. nat_lt limit (gathered_on p.now t.now level patch)) (patches_of p.now level) }
{
    for patch in 0..patch_count(p, level) as u32 {
        if limit < gathered_on(p, t, level, patch) {
            return true;
        }
    }
    false
}

/// Whether a patch of one of the levels gathers more numbers than the limit.
fn is_any_above(p: &Problem, t: &Task, limit: u64, levels: &[u64]) -> bool
    requires form { IsProblemInForm p.now }
    requires faultless { IsFaultless p.now }
    requires task { IsTask p.now t.now }
    requires levels { All (Contains t.now.levels) levels.now }
    ensures { result ≡ is_any_above p.now t.now limit levels.now }
{
    for level in levels {
        if is_patch_above(p, t, *level, limit) {
            return true;
        }
    }
    false
}

/// Whether a detailed task of the task gathers more numbers than the limit.
fn gathers_above(p: &Problem, t: &Task, limit: u64) -> bool
    requires form { IsProblemInForm p.now }
    requires faultless { IsFaultless p.now }
    requires task { IsTask p.now t.now }
    ensures { result ≡ gathers_above p.now limit t.now }
{
    is_any_above(p, t, limit, t.levels.as_slice())
        || (0 < reduces_count(t.writes.as_slice()) && limit < part_count(p, t) as u64)
}

/// Whether a detailed task of the list gathers more numbers than the limit.
pub(crate) fn is_gathered_above(p: &Problem, list: u32, limit: u64) -> bool
    requires form { IsProblemInForm p.now }
    requires faultless { IsFaultless p.now }
    requires list { list < 2 }
    ensures { IsTrue result ↔ Any (λ d. limit < gathered p.now (task_list p.now list) d) (details_of p.now (task_list p.now list)) }
{
    for t in task_list(p, list) {
        if gathers_above(p, t, limit) {
            return true;
        }
    }
    false
}
