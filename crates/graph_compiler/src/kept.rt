//! Which slots stay after a step.
ghost use Rattle.std.specs.Prelude.{◌≡◌, IfOk, map};
ghost use Rattle.problem_types.specs.Form.{IsProblemInForm};
ghost use Rattle.task_rules.specs.Names.{IsReduction};
ghost use Rattle.task_check.specs.Bounds.{AreBoundedTasks, IsBounded};
ghost use Rattle.task_check.specs.Plan.{Old, OldNumber, is_read, old_numbers, old_variables};
ghost use Rattle.graph_compiler.specs.Kept.{IsDeclared, IsOnGrid, is_kept_slot, is_shown, is_wanted_by_next, kept_slots};
ghost use Rattle.graph_compiler.specs.Kinds.{tasks_in};
ghost use Rattle.graph_compiler.specs.Plan.{slots_of_list};

use crate::finals::is_final;
use crate::old_places::old_place;
use crate::old_reads::OldReads;
use crate::plan::{Slot, SlotKind, StepKind};
use problem_types::{NoMemory, Problem, Task, reduction_of, var_of};
use sqlite_items::Items;
use std::alloc::Global;

/// Whether the next step reads what the slot of a variable holds.
fn is_variable_read(p: &Problem, next: &OldReads, s: Slot) -> bool
    requires limits { IsBounded p.now }
    requires slot { IsOnGrid p.now s }
    requires next { next.now.variables.items ≡ map (is_read p.now p.now.timestep) (old_variables p.now) }
    ensures { result ≡ is_read p.now p.now.timestep (Old s.name s.level s.material s.patch) }
{
    match var_of(p, s.name) {
        Some(var) => {
            let first = old_place(p, var, s.level, s.material);
            next.variables[first + s.patch as usize]
        }
        None => false,
    }
}

/// Whether the next step reads the reduction.
fn is_number_read(p: &Problem, next: &OldReads, name: u32) -> bool
    requires declared { IsReduction p.now name }
    requires next { next.now.numbers.items ≡ map (is_read p.now p.now.timestep) (old_numbers p.now) }
    ensures { result ≡ is_read p.now p.now.timestep (OldNumber name) }
{
    match reduction_of(p, name) {
        Some(place) => next.numbers[place],
        None => false,
    }
}

/// Whether the next step, which reads these of this one, reads what the slot holds.
fn is_wanted_by_next(p: &Problem, next: &OldReads, s: Slot) -> bool
    requires limits { IsBounded p.now }
    requires slot { IsDeclared p.now s.kind s }
    requires variables { next.now.variables.items ≡ map (is_read p.now p.now.timestep) (old_variables p.now) }
    requires numbers { next.now.numbers.items ≡ map (is_read p.now p.now.timestep) (old_numbers p.now) }
    ensures { result ≡ is_wanted_by_next p.now s.kind s }
{
    match s.kind {
        SlotKind::New => is_variable_read(p, next, s),
        SlotKind::Number => is_number_read(p, next, s.name),
        SlotKind::Old | SlotKind::Part | SlotKind::OldNumber => false,
    }
}

/// Whether the dump shows the name.
fn is_shown(p: &Problem, name: u32) -> bool
    ensures { result ≡ is_shown p.now name }
{
    p.keeps.as_slice().iter().any(|k| k.name == name)
}

/// Whether the slot of a plan of this kind stays.
fn is_kept(p: &Problem, tasks: &[Task], kind: StepKind, next: &OldReads, s: Slot) -> bool
    requires form { IsProblemInForm p.now }
    requires limits { IsBounded p.now }
    requires tasks { AreBoundedTasks p.now tasks.now }
    requires slot { IsDeclared p.now s.kind s }
    requires variables { next.now.variables.items ≡ map (is_read p.now p.now.timestep) (old_variables p.now) }
    requires numbers { next.now.numbers.items ≡ map (is_read p.now p.now.timestep) (old_numbers p.now) }
    ensures { result ≡ is_kept_slot p.now kind (slots_of_list p.now tasks.now) s }
{
    is_final(tasks, s)
        && ((kind.next && is_wanted_by_next(p, next, s)) || (kind.dump && is_shown(p, s.name)))
}

/// For each slot of a plan whether it stays after the step, by what the timestep list reads of the step before.
pub(crate) fn kept_slots(
    alloc: Global,
    p: &Problem,
    tasks: &[Task],
    kind: StepKind,
    next: &OldReads,
    slots: &[Slot],
) -> Result<Items<bool>, NoMemory>
    requires form { IsProblemInForm p.now }
    requires limits { IsBounded p.now }
    requires tasks { tasks.now ≡ tasks_in p.now kind.list }
    requires slots { slots.now ≡ slots_of_list p.now tasks.now }
    requires variables { next.now.variables.items ≡ map (is_read p.now p.now.timestep) (old_variables p.now) }
    requires numbers { next.now.numbers.items ≡ map (is_read p.now p.now.timestep) (old_numbers p.now) }
    ensures { IfOk result (λ kept. kept ≡ kept_slots p.now kind slots.now) }
{
    let mut kept = Items::new(alloc);
    for slot in slots {
        kept.push(is_kept(p, tasks, kind, next, *slot))?;
    }
    Ok(kept)
}
