//! How many slots of the step before a list reads, and how many numbers they hold. A patch owns at most 68,769,820,673 indexes.
ghost use Rattle.std.specs.Prelude.{◌≡◌, ◌<◌, ◌≤◌, ◌+◌, ◌*◌, ◌∷◌, ◌++◌, [], if◌then◌else◌, Some, filter, length, map, slice_get};
ghost use Rattle.std.specs.List.{flat_map, sum_by};
ghost use Rattle.uts_geom.specs.Spans.{counted};
ghost use Rattle.problem_types.specs.Form.{IsProblemInForm};
ghost use Rattle.problem_types.specs.Lists.{centring_of, task_list};
ghost use Rattle.problem_types.specs.declared.problem.Level.{Level};
ghost use Rattle.task_check.specs.Counts.{owned_count, slot_size};
ghost use Rattle.task_check.specs.First.{IsFaultless};
ghost use Rattle.task_check.specs.Plan.{Old, OldNumber, is_read, old_numbers, old_variables, patches_of};
ghost use Rattle.task_check.specs.Tallies.{HasAtMost, IsTally};

use crate::plan::details::patch_count;
use crate::plan::old_reads::{is_number_read, is_required, read_patches};
use crate::plan::tally::Tally;
use crate::plan::windows::level_at;
use patch_regions::owned;
use problem_lookup::centring_of;
use problem_types::{Centring, Problem};
use uts_geom::volume;

/// Two tallies together.
fn both(a: Tally, b: Tally) -> Tally
    requires few_slots { a.slots ≤ 4194304 }
    requires few_numbers { a.numbers ≤ 68769820673 * 4194304 }
    requires few_other_slots { b.slots ≤ 4194304 }
    requires few_other_numbers { b.numbers ≤ 68769820673 * 4194304 }
    ensures slots { result.slots ≡ a.slots + b.slots }
    ensures numbers { result.numbers ≡ a.numbers + b.numbers }
{
    Tally {
        slots: a.slots + b.slots,
        numbers: a.numbers + b.numbers,
    }
}

/// The tally of a slot that holds so many numbers, if it is read.
fn of_slot(read: bool, numbers: u64) -> Tally
    ensures { result ≡ (if read then record { slots = 1; numbers = numbers } else record { slots = 0; numbers = 0 }) }
{
    if read {
        Tally { slots: 1, numbers }
    } else {
        Tally {
            slots: 0,
            numbers: 0,
        }
    }
}

/// How many numbers of a centring the patch of the level owns.
fn owned_count(p: &Problem, c: Centring, level: u64, patch: u32) -> u64
    requires form { IsProblemInForm p.now }
    requires faultless { IsFaultless p.now }
    requires level { level < length p.now.levels }
    requires patch { (l : Level) → slice_get p.now.levels level ≡ Some l → patch < length l.patches }
    ensures count { result ≡ owned_count p.now c level patch }
    ensures few { result ≤ 68769820673 }
{
    volume(owned(level_at(p, level), patch, c))
}

/// The tally of a variable on a level, for a material.
fn of_material(p: &Problem, list: u32, name: u32, level: u64, material: u64) -> Tally
    requires form { IsProblemInForm p.now }
    requires faultless { IsFaultless p.now }
    requires list { list < 2 }
    requires level { level < length p.now.levels }
    ensures tally { IsTally p.now (task_list p.now list) (map (Old name level material) (patches_of p.now level)) result }
    ensures few { HasAtMost 1024 result }
{
    let read = read_patches(p, list, name, level, material);
    let c = centring_of(p, name);
    let mut tally = of_slot(false, 0);
    for patch in 0..patch_count(p, level) {
        let numbers = owned_count(p, c, level, patch as u32);
        tally = both(tally, of_slot(read[patch], numbers));
    }
    tally
}

/// The tally of a variable on a level.
fn of_level(p: &Problem, list: u32, name: u32, level: u64) -> Tally
    requires form { IsProblemInForm p.now }
    requires faultless { IsFaultless p.now }
    requires list { list < 2 }
    requires level { level < length p.now.levels }
    ensures tally { IsTally p.now (task_list p.now list)
        (flat_map (λ material. map (Old name level material) (patches_of p.now level)) (counted 0 p.now.materials.value)) result }
    ensures few { HasAtMost (1024 * 8) result }
{
    let mut tally = of_slot(false, 0);
    for material in 0..p.materials.value {
        tally = both(tally, of_material(p, list, name, level, material));
    }
    tally
}

/// The tally of a variable on all levels.
fn of_levels(p: &Problem, list: u32, name: u32) -> Tally
    requires form { IsProblemInForm p.now }
    requires faultless { IsFaultless p.now }
    requires list { list < 2 }
    ensures tally { IsTally p.now (task_list p.now list)
        (flat_map (λ level. flat_map (λ material. map (Old name level material) (patches_of p.now level)) (counted 0 p.now.materials.value))
        (counted 0 (length p.now.levels))) result }
    ensures few { HasAtMost (1024 * 8 * 4) result }
{
    let mut tally = of_slot(false, 0);
    for level in 0..p.levels.len() as u64 {
        tally = both(tally, of_level(p, list, name, level));
    }
    tally
}

/// The tally of a variable.
fn of_variable(p: &Problem, list: u32, name: u32) -> Tally
    requires form { IsProblemInForm p.now }
    requires faultless { IsFaultless p.now }
    requires list { list < 2 }
    ensures tally { IsTally p.now (task_list p.now list)
        (flat_map (λ level. flat_map (λ material. map (Old name level material) (patches_of p.now level)) (counted 0 p.now.materials.value))
        (counted 0 (length p.now.levels))) result }
    ensures few { HasAtMost (1024 * 8 * 4) result }
{
    if is_required(p, list, name) {
        of_levels(p, list, name)
    } else {
        of_slot(false, 0)
    }
}

/// The tally of all variables.
fn of_variables(p: &Problem, list: u32) -> Tally
    requires form { IsProblemInForm p.now }
    requires faultless { IsFaultless p.now }
    requires list { list < 2 }
    ensures tally { IsTally p.now (task_list p.now list) (old_variables p.now) result }
    ensures few { HasAtMost (1024 * 8 * 4 * 64) result }
{
    let mut tally = of_slot(false, 0);
    for v in p.vars.as_slice() {
        tally = both(tally, of_variable(p, list, v.name));
    }
    tally
}

/// The tally of all reductions.
fn of_reductions(p: &Problem, list: u32) -> Tally
    requires form { IsProblemInForm p.now }
    requires faultless { IsFaultless p.now }
    requires list { list < 2 }
    ensures tally { IsTally p.now (task_list p.now list) (old_numbers p.now) result }
    ensures few { HasAtMost 16 result }
{
    let mut tally = of_slot(false, 0);
    for q in p.reductions.as_slice() {
        tally = both(tally, of_slot(is_number_read(p, list, q.name), 1));
    }
    tally
}

/// The slots of the step before that the tasks of the list read.
pub(crate) fn old_slots(p: &Problem, list: u32) -> Tally
    requires form { IsProblemInForm p.now }
    requires faultless { IsFaultless p.now }
    requires list { list < 2 }
    ensures slots { result.slots ≡ length (filter (is_read p.now (task_list p.now list)) (old_variables p.now ++ old_numbers p.now)) }
    ensures numbers { result.numbers ≡ sum_by (slot_size p.now (task_list p.now list))
        (filter (is_read p.now (task_list p.now list)) (old_variables p.now ++ old_numbers p.now)) }
    ensures few { HasAtMost 2097168 result }
{
    both(of_variables(p, list), of_reductions(p, list))
}
