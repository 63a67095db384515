//! A run: all steps in order, and their dump.
ghost use Rattle.std.specs.Prelude.{◌≡◌, ◌+◌, ◌≤◌, [], length, IfOk, if◌then◌else◌};
ghost use Rattle.problem_types.specs.Lists.{is_dumped};
ghost use Rattle.uts_model.specs.Dump.{begin_text, by_dumped_steps, dump_bytes, end_text, shown_at, step_text};
ghost use Rattle.uts_model.specs.WholeField.{before_step, end_of_step};
ghost use Rattle.dump_text.specs.Writing.{Writes};
ghost use Rattle.whole_fields.specs.Stored.{IsWarehouseOf, state_of};

use crate::places::scratch_places;
use crate::plan::Plan;
use crate::showing::show_step;
use crate::shown::StepRows;
use crate::step::Step;
use crate::tasks::end_of_step;
use dump_text::{RunFault, dump_begin, dump_end};
use problem_types::NoMemory;
use std::alloc::Global;
use task_check::{Checked, bounds};
use uts_io::Sink;
use whole_fields::{Shapes, Warehouse};

/// The warehouse at the end of a step, by that of the end of the step before.
fn run_tasks_of(
    plan: &Plan,
    number: u32,
    old: &Warehouse,
    scratch: &mut [i64],
) -> Result<Warehouse, NoMemory>
    requires warehouse { IsWarehouseOf plan.now.checked.now old.now }
    requires state { state_of plan.now.checked.now old.now ≡ before_step plan.now.checked.now number }
    requires room { plan.now.places ≤ length scratch.old }
    ensures warehouse { IfOk result (IsWarehouseOf plan.now.checked.now) }
    ensures state { IfOk result (λ w. state_of plan.now.checked.now w ≡ end_of_step plan.now.checked.now number) }
{
    let step = Step {
        alloc: plan.alloc,
        checked: plan.checked,
        shapes: plan.shapes,
        number,
        old,
        places: plan.places,
    };
    end_of_step(&step, scratch)
}

/// Writes what the dump shows of a step, by the warehouse at its end.
fn show_end<O: Sink>(
    plan: &Plan,
    number: u32,
    new: &Warehouse,
    sink: &mut O,
) -> Result<(), RunFault>
    requires warehouse { IsWarehouseOf plan.now.checked.now new.now }
    requires within { number ≤ plan.now.checked.now.steps.value }
    requires state { state_of plan.now.checked.now new.now ≡ end_of_step plan.now.checked.now number }
    ensures { Writes O.after (O.taken sink.old) (O.taken sink.new) (O.faults sink.old) (O.faults sink.new) result
        (if is_dumped plan.now.checked.now number then step_text plan.now.checked.now (shown_at plan.now.checked.now number) number else []) }
{
    let end = StepRows {
        checked: plan.checked,
        shapes: plan.shapes,
        warehouse: new,
    };
    show_step(plan.alloc, &end, number, sink)
}

/// Runs a step, and writes what the dump shows of it. Gives the warehouse at its end.
fn run_step<O: Sink>(
    plan: &Plan,
    number: u32,
    old: &Warehouse,
    scratch: &mut [i64],
    sink: &mut O,
) -> Result<Warehouse, RunFault>
    requires warehouse { IsWarehouseOf plan.now.checked.now old.now }
    requires within { number ≤ plan.now.checked.now.steps.value }
    requires state { state_of plan.now.checked.now old.now ≡ before_step plan.now.checked.now number }
    requires room { plan.now.places ≤ length scratch.old }
    ensures warehouse { IfOk result (IsWarehouseOf plan.now.checked.now) }
    ensures state { IfOk result (λ w. state_of plan.now.checked.now w ≡ end_of_step plan.now.checked.now number) }
    ensures written { Writes O.after (O.taken sink.old) (O.taken sink.new) (O.faults sink.old) (O.faults sink.new) result
        (if is_dumped plan.now.checked.now number then step_text plan.now.checked.now (shown_at plan.now.checked.now number) number else []) }
{
    let new = run_tasks_of(plan, number, old, scratch).map_err(|_| RunFault::NoMemory)?;
    show_end(plan, number, &new, sink)?;
    Ok(new)
}

/// Runs all steps, and writes what the dump shows of each.
fn run_steps<O: Sink>(alloc: Global, c: &Checked, sink: &mut O) -> Result<(), RunFault>
    ensures { Writes O.after (O.taken sink.old) (O.taken sink.new) (O.faults sink.old) (O.faults sink.new) result
        (by_dumped_steps c.now (λ step. step_text c.now (shown_at c.now step) step)) }
{
    bounds(c);
    let shapes = Shapes::of(alloc, c).map_err(|_| RunFault::NoMemory)?;
    let places = scratch_places(c);
    let mut numbers = vec![in alloc; 0; places]?;
    let scratch = numbers.as_mut_slice();
    let plan = Plan {
        alloc,
        checked: c,
        shapes: &shapes,
        places,
    };
    let mut old = Warehouse::nothing(alloc, c).map_err(|_| RunFault::NoMemory)?;
    for number in 0..c.problem().steps.value as u32 + 1 {
        old = run_step(&plan, number, &old, scratch, sink)?;
    }
    Ok(())
}

/// Writes the line that begins a dump.
fn begin<O: Sink>(sink: &mut O) -> Result<(), RunFault>
    ensures { Writes O.after (O.taken sink.old) (O.taken sink.new) (O.faults sink.old) (O.faults sink.new) result begin_text }
{
    dump_begin(sink)?;
    Ok(())
}

/// Writes the end of a dump that no probes watched.
fn end<O: Sink>(alloc: Global, sink: &mut O) -> Result<(), RunFault>
    ensures { Writes O.after (O.taken sink.old) (O.taken sink.new) (O.faults sink.old) (O.faults sink.new) result (end_text []) }
{
    dump_end(alloc, sink, &Vec::new(alloc))
}

/// Runs a problem on one thread, over whole fields, and writes its dump. After an error the sink has taken a prefix of the dump.
pub fn run_plain<O: Sink>(alloc: Global, c: &Checked, sink: &mut O) -> Result<(), RunFault>
    ensures written { Writes O.after (O.taken sink.old) (O.taken sink.new) (O.faults sink.old) (O.faults sink.new) result
        (dump_bytes c.now []) }
{
    begin(sink)?;
    run_steps(alloc, c, sink)?;
    end(alloc, sink)
}
