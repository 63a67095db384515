//! Which slots of the step before the tasks of a list read.
ghost use Rattle.std.specs.Prelude.{◌≡◌, ◌<◌, ◌≤◌, ◌==◌, ℕ, Contains, length};
ghost use Rattle.std.specs.List.{list_any};
ghost use Rattle.problem_types.specs.Form.{IsProblemInForm, IsWhatInForm};
ghost use Rattle.problem_types.specs.Levels.{KeepsGridLimits};
ghost use Rattle.problem_types.specs.Lists.{task_list};
ghost use Rattle.problem_types.specs.declared.problem.Task.{Task};
ghost use Rattle.uts_geom.specs.Spans.{do_meet};
ghost use Rattle.patch_regions.specs.Regions.{owned_span};
ghost use Rattle.task_rules.specs.Lines.{wanted_level};
ghost use Rattle.task_check.specs.First.{IsFaultless};
ghost use Rattle.task_check.specs.Marks.{AreMarkedToo, is_marked};
ghost use Rattle.task_check.specs.Supplies.{layers_of};
ghost use Rattle.task_check.specs.OldSlots.{is_old_number, is_old_variable, reads_number, reads_variable, requires_old, touches_patch, wants_old};
ghost use Rattle.task_check.specs.Plan.{Old, OldNumber, is_read, patches_of};
ghost use Rattle.task_check.specs.Sizes.{IsTask};

use crate::plan::windows::{box_window, level_at, wanted_level};
use patch_regions::{owned, patch_count};
use problem_lookup::{centring_of, task_list};
use problem_types::{Centring, Level, Problem, Require, Store, Task, What};
use task_rules::wanted_name;
use uts_geom::{Span, do_meet};

/// Whether the requirement is of the variable at the end of the step before.
fn is_old_variable(r: Require, name: u32) -> bool
    ensures { result ≡ is_old_variable name r }
{
    matches!(r.store, Store::Old)
        && !matches!(r.what, What::Number { .. })
        && name == wanted_name(r.what)
}

/// Whether the requirement is of the reduction at the end of the step before.
fn is_old_number(r: Require, name: u32) -> bool
    ensures { result ≡ is_old_number name r }
{
    matches!(r.store, Store::Old)
        && matches!(r.what, What::Number { .. })
        && name == wanted_name(r.what)
}

/// Marks the patches of a level that own an index of the window.
fn mark_met(marks: &mut [bool], l: &Level, c: Centring, window: Span)
    requires limits { KeepsGridLimits l.now }
    requires room { length marks.old ≡ 1024 }
    ensures { AreMarkedToo marks.old marks.new (length l.now.patches) (λ patch. do_meet (owned_span c l.now patch) window) }
{
    for patch in 0..patch_count(l) {
        let met = do_meet(owned(l, patch, c), window);
        marks[patch as usize] = marks[patch as usize] | met;
    }
}

/// Marks the patches of a level on which the requirement reads the variable, from the level `from` of its task.
fn mark_wanted(marks: &mut [bool], p: &Problem, r: Require, from: u64, name: u32, level: u64)
    requires form { IsProblemInForm p.now }
    requires faultless { IsFaultless p.now }
    requires in_form { IsWhatInForm (length p.now.names) r.what }
    requires few { layers_of r.what ≤ 8 }
    requires from { from < length p.now.levels }
    requires wanted { wanted_level r.what from < length p.now.levels }
    requires level { level < length p.now.levels }
    requires room { length marks.old ≡ 1024 }
    ensures { (t : Task) → AreMarkedToo marks.old marks.new (length (patches_of p.now level)) (λ patch. wants_old p.now t name level patch from r) }
{
    if is_old_variable(r, name) && level == wanted_level(r.what, from) {
        let c = centring_of(p, name);
        mark_met(marks, level_at(p, level), c, box_window(p, r.what, from));
    }
}

/// Marks the patches of a level on which the task reads the variable from its level `from`.
fn mark_from(marks: &mut [bool], p: &Problem, t: &Task, from: u64, name: u32, level: u64)
    requires form { IsProblemInForm p.now }
    requires faultless { IsFaultless p.now }
    requires task { IsTask p.now t.now }
    requires from { Contains t.now.levels from }
    requires level { level < length p.now.levels }
    requires room { length marks.old ≡ 1024 }
    ensures { AreMarkedToo marks.old marks.new (length (patches_of p.now level)) (λ patch. list_any (wants_old p.now t.now name level patch from) t.now.requirements) }
{
    for r in t.requirements.as_slice() {
        mark_wanted(marks, p, *r, from, name, level);
    }
}

/// Marks the patches of a level on which the task reads the variable.
fn mark_touched(marks: &mut [bool], p: &Problem, t: &Task, name: u32, level: u64)
    requires form { IsProblemInForm p.now }
    requires faultless { IsFaultless p.now }
    requires task { IsTask p.now t.now }
    requires level { level < length p.now.levels }
    requires room { length marks.old ≡ 1024 }
    ensures { AreMarkedToo marks.old marks.new (length (patches_of p.now level)) (λ patch. touches_patch p.now name level patch t.now) }
{
    for from in t.levels.as_slice() {
        mark_from(marks, p, t, *from, name, level);
    }
}

/// Whether the task runs on the material.
fn runs_for(t: &Task, material: u64) -> bool
    ensures { result ≡ list_any (λ m. material == m) t.now.materials }
{
    t.materials.as_slice().iter().any(|m| material == *m)
}

/// Marks the patches of a level on which the task reads the variable for the material.
fn mark_read(marks: &mut [bool], p: &Problem, t: &Task, name: u32, level: u64, material: u64)
    requires form { IsProblemInForm p.now }
    requires faultless { IsFaultless p.now }
    requires task { IsTask p.now t.now }
    requires level { level < length p.now.levels }
    requires room { length marks.old ≡ 1024 }
    ensures { AreMarkedToo marks.old marks.new (length (patches_of p.now level)) (λ patch. reads_variable p.now name level material patch t.now) }
{
    if runs_for(t, material) {
        mark_touched(marks, p, t, name, level);
    }
}

/// Whether the task reads the reduction.
fn reads_number(t: &Task, name: u32) -> bool
    ensures { result ≡ reads_number name t.now }
{
    t.requirements
        .as_slice()
        .iter()
        .any(|r| is_old_number(*r, name))
}

/// Whether the task requires the variable as it stands at the end of the step before.
fn requires_old(t: &Task, name: u32) -> bool
    ensures { result ≡ requires_old name t.now }
{
    t.requirements
        .as_slice()
        .iter()
        .any(|r| is_old_variable(*r, name))
}

/// Whether a task of the list requires the variable as it stands at the end of the step before.
pub(crate) fn is_required(p: &Problem, list: u32, name: u32) -> bool
    ensures { result ≡ list_any (requires_old name) (task_list p.now list) }
{
    for t in task_list(p, list) {
        if requires_old(t, name) {
            return true;
        }
    }
    false
}

/// For each patch of the level, at its number, whether a task of the list (0 for the init list, 1 for the timestep list) reads the
/// variable there at the end of the step before, for the material. What stands behind the level's last patch says nothing. There is
/// no error.
pub fn read_patches(p: &Problem, list: u32, name: u32, level: u64, material: u64) -> [bool; 1024]
    requires form { IsProblemInForm p.now }
    requires faultless { IsFaultless p.now }
    requires list { list < 2 }
    requires level { level < length p.now.levels }
    ensures { (patch : ℕ) → patch < length (patches_of p.now level) → is_marked result patch ≡ is_read p.now (task_list p.now list) (Old name level material patch) }
{
    let mut marks = [false; 1024];
    for t in task_list(p, list) {
        mark_read(&mut marks, p, t, name, level, material);
    }
    marks
}

/// Whether a task of the list reads the reduction at the end of the step before.
pub fn is_number_read(p: &Problem, list: u32, name: u32) -> bool
    requires form { IsProblemInForm p.now }
    requires faultless { IsFaultless p.now }
    requires list { list < 2 }
    ensures { result ≡ is_read p.now (task_list p.now list) (OldNumber name) }
{
    for t in task_list(p, list) {
        if reads_number(t, name) {
            return true;
        }
    }
    false
}
