//! The values of the old slots of a step, found by plain recursion.
ghost use Rattle.std.specs.Prelude.{◌≡◌, ◌<◌, ◌≤◌, ◌++◌, ◌∷◌, [], IfOk, IfSome, OnOk};
ghost use Rattle.uts_geom.specs.Spans.{counted};
ghost use Rattle.problem_types.specs.Lists.{task_list};
ghost use Rattle.graph_types.specs.Content.{FitsSlot};
ghost use Rattle.graph_compiler.specs.Shown.{shown_slot};
ghost use Rattle.task_check.specs.Plan.{Slot as TaskSlot};
ghost use Rattle.unified_scheduler.specs.Fitting.{AreFitting};
ghost use Rattle.slot_contents.specs.Contents.{content_of, contents_of};
ghost use Rattle.slot_contents.specs.Values.{Fits};
ghost use Rattle.run_task.specs.Jobs.{IsPlanFor};

use field_box::Value;
use graph_compiler::{Plan, Slot, SlotKind};
use graph_types::NoMemory;
use std::alloc::Global;
use task_check::Checked;
use uts_model::reduction_at_end;

/// What a slot holds of a reduction as the step before left it. None where the slot holds something else.
fn old_number(c: &Checked, step: u32, slot: Slot) -> Option<Value>
    requires later { 0 < step }
    requires few_steps { step ≤ 4 }
    requires in_run { step ≤ c.now.steps.value }
    ensures { IfSome result (λ value. (s : TaskSlot) → slot ≡ shown_slot (task_list c.now step) s → Fits (content_of c.now step s) value) }
{
    match slot.kind {
        SlotKind::OldNumber => Some(Value::Number(reduction_at_end(c, step - 1, slot.name))),
        _ => None,
    }
}

/// The same of the slot of this number.
fn old_number_at(c: &Checked, plan: &Plan, step: u32, k: u32) -> Option<Value>
    requires later { 0 < step }
    requires few_steps { step ≤ 4 }
    requires in_run { step ≤ c.now.steps.value }
    requires compiled { IsPlanFor c.now step plan.now }
    ensures { IfSome result (λ value. FitsSlot Fits (contents_of c.now step) k value) }
{
    let slot = plan.slots.as_slice().get(k as usize)?;
    old_number(c, step, *slot)
}

/// Puts a value at the end.
fn put(values: &mut Vec<Value>, value: Value) -> Result<(), NoMemory>
    ensures { OnOk result (values.new.items ≡ values.old.items ++ value ∷ []) }
{
    match values.push(value) {
        Ok(()) => Ok(()),
        Err(_) => Err(NoMemory),
    }
}

/// One value for each old slot of a later step's plan, where each holds a reduction. None where one of them holds a variable.
pub fn old_numbers(
    alloc: Global,
    c: &Checked,
    plan: &Plan,
    step: u32,
) -> Result<Option<Vec<Value>>, NoMemory>
    requires later { 0 < step }
    requires few_steps { step ≤ 4 }
    requires in_run { step ≤ c.now.steps.value }
    requires compiled { IsPlanFor c.now step plan.now }
    ensures { IfOk result (λ found. IfSome found (λ values.
        AreFitting Fits (contents_of c.now step) (counted 0 plan.now.graph.old) values.items)) }
{
    let mut values = Vec::new(alloc);
    for k in 0..plan.graph.old {
        let Some(value) = old_number_at(c, plan, step, k) else {
            return Ok(None);
        };
        put(&mut values, value)?;
    }
    Ok(Some(values))
}
