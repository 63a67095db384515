//! The tasks of a step, in order.
ghost use Rattle.std.specs.Prelude.{◌≡◌, ◌<◌, ◌≤◌, length, map, All, IfOk, OnOk};
ghost use Rattle.uts_model.specs.WholeField.{after_task, after_tasks, before_step, end_of_step};
ghost use Rattle.whole_fields.specs.Stored.{IsWarehouseOf, state_of};
ghost use Rattle.plain_engine.specs.Changes.{IsBlankOutside, IsFieldOf, written_of, field_changes, number_changes};
ghost use Rattle.plain_engine.specs.Runnable.{IsRunnable};
ghost use Rattle.plain_engine.specs.declared.written.WrittenNumber.{WrittenNumber};

use crate::fields::written_fields;
use crate::moment::Moment;
use crate::numbers::written_numbers;
use crate::putting::{put_fields, put_numbers};
use crate::step::Step;
use crate::written::{WrittenField, WrittenNumber};
use problem_lookup::task_list;
use problem_types::{NoMemory, Task};
use sqlite_items::Items;
use std::alloc::AllocError;
use whole_fields::Warehouse;

/// What stands before a task, by its step and what the tasks before left.
fn moment_of<'a>(step: &Step<'a>, new: &'a Warehouse) -> Moment<'a>
    requires { IsWarehouseOf step.now.checked.now new.now }
    ensures checked { result.checked ≡ step.now.checked }
    ensures number { result.step ≡ step.now.number }
    ensures old { result.old ≡ step.now.old }
    ensures new { result.new.now ≡ new.now }
    ensures places { result.places ≡ step.now.places }
{
    Moment {
        alloc: step.alloc,
        checked: step.checked,
        shapes: step.shapes,
        step: step.number,
        old: step.old,
        new,
        places: step.places,
    }
}

/// All that a task gives.
#[derive(Drop)]
struct Written {
    fields: Items<WrittenField>,
    numbers: Items<WrittenNumber>,
}

/// What a task gives, by what stands before it.
fn written_by(
    step: &Step,
    task: &Task,
    new: &Warehouse,
    scratch: &mut [i64],
) -> Result<Written, AllocError>
    requires warehouse { IsWarehouseOf step.now.checked.now new.now }
    requires task { IsRunnable step.now.checked.now step.now.places task.now }
    requires room { step.now.places ≤ length scratch.old }
    ensures fields { IfOk result (λ w. w.fields ≡ map (written_of step.now.checked.now)
        (field_changes step.now.checked.now step.now.number (state_of step.now.checked.now step.now.old.now) (state_of step.now.checked.now new.now) task.now)) }
    ensures numbers { IfOk result (λ w. w.numbers
        ≡ number_changes step.now.checked.now step.now.number (state_of step.now.checked.now step.now.old.now) (state_of step.now.checked.now new.now) task.now) }
{
    let moment = moment_of(step, new);
    let fields = written_fields(&moment, task, scratch)?;
    let numbers = written_numbers(&moment, task, scratch)?;
    Ok(Written { fields, numbers })
}

/// Runs a task. It computes all that it gives from what stands before it, and puts it only then.
fn run_task(
    step: &Step,
    task: &Task,
    new: &mut Warehouse,
    scratch: &mut [i64],
) -> Result<(), AllocError>
    requires warehouse { IsWarehouseOf step.now.checked.now new.old }
    requires task { IsRunnable step.now.checked.now step.now.places task.now }
    requires room { step.now.places ≤ length scratch.old }
    requires blank { IsBlankOutside step.now.checked.now (state_of step.now.checked.now new.old) }
    ensures warehouse { OnOk result (IsWarehouseOf step.now.checked.now new.new) }
    ensures state { OnOk result (state_of step.now.checked.now new.new
        ≡ after_task step.now.checked.now step.now.number (state_of step.now.checked.now step.now.old.now) (state_of step.now.checked.now new.old) task.now) }
{
    let Written { fields, numbers } = written_by(step, task, new, scratch)?;
    put_fields(step.checked, fields, new);
    put_numbers(step.checked, numbers, new);
    Ok(())
}

/// The warehouse that tasks leave, in order, from the start of a step.
fn run_tasks(step: &Step, tasks: &[Task], scratch: &mut [i64]) -> Result<Warehouse, NoMemory>
    requires tasks { All (IsRunnable step.now.checked.now step.now.places) tasks.now }
    requires room { step.now.places ≤ length scratch.old }
    ensures warehouse { IfOk result (IsWarehouseOf step.now.checked.now) }
    ensures state { IfOk result (λ w. state_of step.now.checked.now w
        ≡ after_tasks step.now.checked.now step.now.number (state_of step.now.checked.now step.now.old.now) tasks.now) }
{
    let mut new = Warehouse::unset(step.alloc, step.checked)?;
    for task in tasks {
        run_task(step, task, &mut new, scratch)?;
    }
    Ok(new)
}

/// The warehouse at the end of a step.
pub(crate) fn end_of_step(step: &Step, scratch: &mut [i64]) -> Result<Warehouse, NoMemory>
    requires room { step.now.places ≤ length scratch.old }
    requires state { state_of step.now.checked.now step.now.old.now ≡ before_step step.now.checked.now step.now.number }
    ensures warehouse { IfOk result (IsWarehouseOf step.now.checked.now) }
    ensures state { IfOk result (λ w. state_of step.now.checked.now w ≡ end_of_step step.now.checked.now step.now.number) }
{
    run_tasks(
        step,
        task_list(step.checked.problem(), step.number),
        scratch,
    )
}
