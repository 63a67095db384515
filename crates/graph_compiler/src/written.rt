//! The slots that the detailed tasks of a list write, in order, with their versions.
ghost use Rattle.std.specs.Prelude.{◌≡◌, ◌++◌, ◌+◌, ◌∷◌, ◌≤◌, [], IfOk, OnOk, length, map, take, if◌then◌else◌};
ghost use Rattle.std.specs.List.{count_by, flat_map};
ghost use Rattle.uts_geom.specs.Spans.{counted};
ghost use Rattle.problem_types.specs.Lists.{is_reduces};
ghost use Rattle.task_check.specs.Bounds.{AreBoundedTasks, IsBounded, IsBoundedTask};
ghost use Rattle.task_check.specs.Plan.{details_of, patches_of, written_by};
ghost use Rattle.graph_compiler.specs.Shown.{modifies_variable, shown_slot};
ghost use Rattle.graph_compiler.specs.Written.{kind_written, line_slot, number_slot, number_slots, on_level, patch_slots, slot_on, task_slots, version_by_kind};

use crate::details::patch_count;
use crate::plan::{Slot, SlotKind};
use problem_lookup::is_reduces;
use problem_types::{NoMemory, Problem, Task, Write, WriteKind};
use sqlite_items::Items;
use std::alloc::{AllocError, Global};
use task_rules::{has_modifies, runs_on};

/// Whether the task modifies the variable on a material and a level.
fn modifies_variable(t: &Task, name: u32, material: u32, level: u32) -> bool
    ensures { result ≡ modifies_variable name material level t.now }
{
    runs_on(t, u64::from(material), u64::from(level)) && has_modifies(t.writes.as_slice(), name)
}

/// How many of the tasks modify the variable on a material and a level.
pub(crate) fn modified_by(tasks: &[Task], name: u32, material: u32, level: u32) -> u32
    requires { length tasks.now ≤ 64 }
    ensures count { result ≡ count_by (modifies_variable name material level) tasks.now }
    ensures few { result ≤ 64 }
{
    tasks
        .iter()
        .filter(|t| modifies_variable(*t, name, material, level))
        .count() as u32
}

/// The kind of the slot that a line writes on a patch.
fn kind_written(kind: WriteKind) -> SlotKind
    ensures { result ≡ kind_written kind }
{
    match kind {
        WriteKind::Computes | WriteKind::Modifies => SlotKind::New,
        WriteKind::Reduces(_) => SlotKind::Part,
    }
}

/// The version of that slot, where so many earlier tasks modify the variable there.
fn version_by_kind(kind: WriteKind, earlier: u32) -> u32
    requires { earlier ≤ 64 }
    ensures { result ≡ version_by_kind kind earlier }
{
    match kind {
        WriteKind::Computes => earlier,
        WriteKind::Modifies => earlier + 1,
        WriteKind::Reduces(_) => 0,
    }
}

/// The slot that a line of a task behind these writes on patch 0.
fn line_slot(earlier: &[Task], level: u32, material: u32, w: &Write) -> Slot
    requires { length earlier.now ≤ 64 }
    ensures { result ≡ line_slot earlier.now level material 0 w.now }
{
    let modified = modified_by(earlier, w.name, material, level);
    Slot {
        kind: kind_written(w.kind),
        name: w.name,
        material,
        level,
        patch: 0,
        version: version_by_kind(w.kind, modified),
    }
}

/// The slots that the lines of a task behind these write on patch 0.
fn line_slots(
    alloc: Global,
    earlier: &[Task],
    writes: &[Write],
    level: u32,
    material: u32,
) -> Result<Items<Slot>, AllocError>
    requires { length earlier.now ≤ 64 }
    ensures { IfOk result (λ slots. slots ≡ map (line_slot earlier.now level material 0) writes.now) }
{
    let mut slots = Items::new(alloc);
    for w in writes {
        slots.push(line_slot(earlier, level, material, w))?;
    }
    Ok(slots)
}

/// Puts slots at the end, as they are on a patch.
fn put_on_patch(slots: &mut Items<Slot>, lines: &[Slot], patch: u32) -> Result<(), AllocError>
    ensures { OnOk result (slots.new ≡ slots.old ++ map (slot_on patch) lines.now) }
{
    for line in lines {
        slots.push(Slot { patch, ..*line })?;
    }
    Ok(())
}

/// Puts slots at the end, as they are on each of so many patches.
#[tactic(auto, using(crate::proofs::Growing::extend_place))]
fn put_on_patches(slots: &mut Items<Slot>, lines: &[Slot], patches: u32) -> Result<(), AllocError>
    ensures { OnOk result (slots.new ≡ slots.old ++ flat_map (λ patch. map (slot_on patch) lines.now) (counted 0 patches)) }
{
    for patch in 0..patches {
        put_on_patch(slots, lines, patch)?;
    }
    Ok(())
}

/// Puts what a task behind these writes on the patches of a level at the end, for a material.
#[tactic(auto, using(crate::proofs::TaskSlots::on_level_is))]
fn put_level(
    alloc: Global,
    slots: &mut Items<Slot>,
    p: &Problem,
    earlier: &[Task],
    writes: &[Write],
    level: u32,
    material: u32,
) -> Result<(), AllocError>
    requires limits { IsBounded p.now }
    requires earlier { length earlier.now ≤ 64 }
    ensures { OnOk result (slots.new ≡ slots.old ++ on_level p.now earlier.now writes.now level material) }
{
    let lines = line_slots(alloc, earlier, writes, level, material)?;
    put_on_patches(slots, lines.as_slice(), patch_count(p, level))
}

/// Puts what a task behind these writes on the patches of a level at the end, material by material.
fn put_materials(
    alloc: Global,
    slots: &mut Items<Slot>,
    p: &Problem,
    earlier: &[Task],
    t: &Task,
    level: u32,
) -> Result<(), AllocError>
    requires limits { IsBounded p.now }
    requires earlier { length earlier.now ≤ 64 }
    requires task { IsBoundedTask p.now t.now }
    ensures { OnOk result (slots.new ≡ slots.old ++ flat_map (on_level p.now earlier.now t.now.writes level) t.now.materials) }
{
    for material in t.materials.as_slice() {
        put_level(
            alloc,
            slots,
            p,
            earlier,
            t.writes.as_slice(),
            level,
            *material as u32,
        )?;
    }
    Ok(())
}

/// Puts what a task behind these writes on patches at the end, level by level.
fn put_levels(
    alloc: Global,
    slots: &mut Items<Slot>,
    p: &Problem,
    earlier: &[Task],
    t: &Task,
) -> Result<(), AllocError>
    requires limits { IsBounded p.now }
    requires earlier { length earlier.now ≤ 64 }
    requires task { IsBoundedTask p.now t.now }
    ensures { OnOk result (slots.new ≡ slots.old ++ patch_slots p.now earlier.now t.now) }
{
    for level in t.levels.as_slice() {
        put_materials(alloc, slots, p, earlier, t, *level as u32)?;
    }
    Ok(())
}

/// Puts the number of a line at the end, if the line reduces.
fn put_number(slots: &mut Items<Slot>, w: &Write) -> Result<(), AllocError>
    ensures { OnOk result (slots.new ≡ slots.old ++ (if is_reduces w.now.kind then number_slot w.now ∷ [] else [])) }
{
    if is_reduces(w.kind) {
        slots.push(Slot {
            kind: SlotKind::Number,
            name: w.name,
            material: 0,
            level: 0,
            patch: 0,
            version: 0,
        })?;
    }
    Ok(())
}

/// Puts the numbers of the lines that reduce at the end.
fn put_numbers(slots: &mut Items<Slot>, writes: &[Write]) -> Result<(), AllocError>
    ensures { OnOk result (slots.new ≡ slots.old ++ number_slots writes.now) }
{
    for w in writes {
        put_number(slots, w)?;
    }
    Ok(())
}

/// Puts the slots that a task behind these writes at the end.
fn put_task(
    alloc: Global,
    slots: &mut Items<Slot>,
    p: &Problem,
    earlier: &[Task],
    t: &Task,
) -> Result<(), AllocError>
    requires limits { IsBounded p.now }
    requires earlier { length earlier.now ≤ 64 }
    requires task { IsBoundedTask p.now t.now }
    ensures { OnOk result (slots.new ≡ slots.old ++ task_slots p.now earlier.now t.now) }
{
    put_levels(alloc, slots, p, earlier, t)?;
    put_numbers(slots, t.writes.as_slice())
}

/// The tasks before a place.
fn earlier(tasks: &[Task], place: usize) -> &[Task]
    requires { place ≤ length tasks.now }
    ensures { result.now ≡ take place tasks.now }
{
    &tasks[..place]
}

/// Puts the slots that the detailed tasks of a list write at the end.
pub(crate) fn put_written(
    alloc: Global,
    slots: &mut Items<Slot>,
    p: &Problem,
    tasks: &[Task],
) -> Result<(), NoMemory>
    requires limits { IsBounded p.now }
    requires tasks { AreBoundedTasks p.now tasks.now }
    ensures { OnOk result (slots.new ≡ slots.old ++ map (shown_slot tasks.now) (flat_map (written_by tasks.now) (details_of p.now tasks.now))) }
{
    for (task, t) in tasks.iter().enumerate() {
        put_task(alloc, slots, p, earlier(tasks, task), t)?;
    }
    Ok(())
}
