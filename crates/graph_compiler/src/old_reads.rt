//! What a list reads of the step before.
ghost use Rattle.std.specs.Prelude.{◌≡◌, ◌+◌, ◌<◌, ◌≤◌, ◌++◌, ◌∷◌, [], IfOk, OnOk, Some, ℕ, cond, filter, length, map, slice_get};
ghost use Rattle.std.specs.List.{flat_map};
ghost use Rattle.uts_geom.specs.Spans.{counted};
ghost use Rattle.problem_types.specs.Form.{IsProblemInForm};
ghost use Rattle.problem_types.specs.Lists.{task_list};
ghost use Rattle.problem_types.specs.declared.problem.Var.{Var};
ghost use Rattle.task_check.specs.Bounds.{IsBounded};
ghost use Rattle.task_check.specs.First.{IsAccepted};
ghost use Rattle.task_check.specs.Plan.{Old, OldNumber, is_read, old_numbers, old_variables, patches_of};
ghost use Rattle.graph_compiler.specs.Places.{ArePut, of_level, of_material, of_variable, read_slots};
ghost use Rattle.graph_compiler.specs.Shown.{shown_slot};

use crate::details::patch_count;
use crate::plan::{Slot, SlotKind};
use problem_types::{NoMemory, Problem};
use sqlite_items::Items;
use std::alloc::{AllocError, Global};
use task_check::{is_number_read, read_patches};

/// For each variable on each level, material and patch, and for each reduction, whether a list reads what stood at the end of the step
/// before; and the slots of what it reads, in the same order. Patches go fastest, then materials, then levels, then variables by
/// declaration.
#[derive(Debug, Drop)]
pub(crate) struct OldReads {
    pub(crate) variables: Vec<bool>,
    pub(crate) numbers: Vec<bool>,
    pub(crate) slots: Items<Slot>,
}

/// The slot of a variable at the end of the step before.
fn old_slot(name: u32, level: u32, material: u32, patch: u32) -> Slot
    ensures { result ≡ shown_slot [] (Old name level material patch) }
{
    Slot {
        kind: SlotKind::Old,
        name,
        material,
        level,
        patch,
        version: 0,
    }
}

/// The slot of a reduction at the end of the step before.
fn old_number(name: u32) -> Slot
    ensures { result ≡ shown_slot [] (OldNumber name) }
{
    Slot {
        kind: SlotKind::OldNumber,
        name,
        material: 0,
        level: 0,
        patch: 0,
        version: 0,
    }
}

/// Puts the slot at the end, if it is read.
fn put_if(slots: &mut Items<Slot>, slot: Slot, read: bool) -> Result<(), AllocError>
    ensures { OnOk result (slots.new ≡ slots.old ++ cond read (slot ∷ []) []) }
{
    if read {
        slots.push(slot)?;
    }
    Ok(())
}

/// Puts whether the slot is read at the end, and the slot, if it is.
fn put_slot(
    marks: &mut Vec<bool>,
    slots: &mut Items<Slot>,
    slot: Slot,
    read: bool,
) -> Result<(), AllocError>
    ensures marks { OnOk result (marks.new.items ≡ marks.old.items ++ read ∷ []) }
    ensures slots { OnOk result (slots.new ≡ slots.old ++ cond read (slot ∷ []) []) }
{
    marks.push(read)?;
    put_if(slots, slot, read)
}

/// Puts those of a variable on the patches of a level, for a material.
fn put_patches(
    marks: &mut Vec<bool>,
    slots: &mut Items<Slot>,
    p: &Problem,
    list: u32,
    name: u32,
    level: u32,
    material: u32,
) -> Result<(), AllocError>
    requires form { IsProblemInForm p.now }
    requires accepted { IsAccepted p.now }
    requires limits { IsBounded p.now }
    requires list { list < 2 }
    requires level { level < length p.now.levels }
    ensures { OnOk result (ArePut p.now (task_list p.now list) (of_material p.now name level material) marks.old.items marks.new.items slots.old slots.new) }
{
    let read = read_patches(p, list, name, u64::from(level), u64::from(material));
    for patch in 0..patch_count(p, level) {
        let slot = old_slot(name, level, material, patch);
        put_slot(marks, slots, slot, read[patch as usize])?;
    }
    Ok(())
}

/// Puts those of a variable on a level, material by material.
fn put_level(
    marks: &mut Vec<bool>,
    slots: &mut Items<Slot>,
    p: &Problem,
    list: u32,
    name: u32,
    level: u32,
) -> Result<(), AllocError>
    requires form { IsProblemInForm p.now }
    requires accepted { IsAccepted p.now }
    requires limits { IsBounded p.now }
    requires list { list < 2 }
    requires level { level < length p.now.levels }
    ensures { OnOk result (ArePut p.now (task_list p.now list) (of_level p.now name level) marks.old.items marks.new.items slots.old slots.new) }
{
    for material in 0..p.materials.value as u32 {
        put_patches(marks, slots, p, list, name, level, material)?;
    }
    Ok(())
}

/// Puts those of a variable, level by level.
fn put_variable(
    marks: &mut Vec<bool>,
    slots: &mut Items<Slot>,
    p: &Problem,
    list: u32,
    name: u32,
) -> Result<(), AllocError>
    requires form { IsProblemInForm p.now }
    requires accepted { IsAccepted p.now }
    requires limits { IsBounded p.now }
    requires list { list < 2 }
    ensures { OnOk result (ArePut p.now (task_list p.now list) (of_variable p.now name) marks.old.items marks.new.items slots.old slots.new) }
{
    for level in 0..p.levels.len() as u32 {
        put_level(marks, slots, p, list, name, level)?;
    }
    Ok(())
}

/// Puts those of all variables.
fn put_variables(
    alloc: Global,
    slots: &mut Items<Slot>,
    p: &Problem,
    list: u32,
) -> Result<Vec<bool>, AllocError>
    requires form { IsProblemInForm p.now }
    requires accepted { IsAccepted p.now }
    requires limits { IsBounded p.now }
    requires list { list < 2 }
    ensures { IfOk result (λ marks. ArePut p.now (task_list p.now list) (old_variables p.now) [] marks.items slots.old slots.new) }
{
    let mut marks = Vec::new(alloc);
    for variable in p.vars.as_slice() {
        put_variable(&mut marks, slots, p, list, variable.name)?;
    }
    Ok(marks)
}

/// Puts those of all reductions.
fn put_numbers(
    alloc: Global,
    slots: &mut Items<Slot>,
    p: &Problem,
    list: u32,
) -> Result<Vec<bool>, AllocError>
    requires form { IsProblemInForm p.now }
    requires accepted { IsAccepted p.now }
    requires list { list < 2 }
    ensures { IfOk result (λ marks. ArePut p.now (task_list p.now list) (old_numbers p.now) [] marks.items slots.old slots.new) }
{
    let mut marks = Vec::new(alloc);
    for reduction in p.reductions.as_slice() {
        let read = is_number_read(p, list, reduction.name);
        put_slot(&mut marks, slots, old_number(reduction.name), read)?;
    }
    Ok(marks)
}

/// What the tasks of a list read of the step before.
pub(crate) fn old_reads(alloc: Global, p: &Problem, list: u32) -> Result<OldReads, NoMemory>
    requires form { IsProblemInForm p.now }
    requires accepted { IsAccepted p.now }
    requires limits { IsBounded p.now }
    requires list { list < 2 }
    ensures variables { IfOk result (λ reads. reads.variables.items ≡ map (is_read p.now (task_list p.now list)) (old_variables p.now)) }
    ensures numbers { IfOk result (λ reads. reads.numbers.items ≡ map (is_read p.now (task_list p.now list)) (old_numbers p.now)) }
    ensures slots { IfOk result (λ reads. reads.slots ≡ read_slots p.now (task_list p.now list)) }
{
    let mut slots = Items::new(alloc);
    let variables = put_variables(alloc, &mut slots, p, list)?;
    let numbers = put_numbers(alloc, &mut slots, p, list)?;
    Ok(OldReads {
        variables,
        numbers,
        slots,
    })
}
