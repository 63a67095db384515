//! Steps that are run on one thread.
ghost use Rattle.std.specs.Prelude.{IfOk, IfSome};
ghost use Rattle.uts_geom.specs.Spans.{counted};
ghost use Rattle.unified_scheduler.specs.Fitting.{AreFitting};
ghost use Rattle.slot_contents.specs.Contents.{contents_of};
ghost use Rattle.slot_contents.specs.Values.{Fits};
ghost use Rattle.run_task.specs.Jobs.{IsPlanFor};

use crate::old_numbers;
use field_box::Value;
use graph_compiler::{Plan, compile, kind_of, plans_are_valid};
use graph_tests::checked;
use graph_types::NoMemory;
use run_task::StepJob;
use serial_step::run_serially;
use std::alloc::Global;
use std::test::Fail;
use task_check::Checked;

/// The plan of a step; none behind the last step.
pub(crate) fn step_plan(alloc: Global, c: &Checked, step: u32) -> Result<Option<Plan>, NoMemory>
    ensures { IfOk result (λ found. IfSome found (λ plan. IsPlanFor c.now step plan)) }
{
    if u64::from(step) > c.problem().steps.value {
        return Ok(None);
    }
    match compile(alloc, c, kind_of(c, step)) {
        Ok(plan) => Ok(Some(plan)),
        Err(_) => Err(NoMemory),
    }
}

/// One value for each old slot of a step. None where one of them holds a variable, and behind the fourth step.
fn old_values(
    alloc: Global,
    c: &Checked,
    plan: &Plan,
    step: u32,
) -> Result<Option<Vec<Value>>, NoMemory>
    requires compiled { IsPlanFor c.now step plan.now }
    ensures { IfOk result (λ found. IfSome found (λ old.
        AreFitting Fits (contents_of c.now step) (counted 0 plan.now.graph.old) old.items)) }
{
    if plan.graph.old == 0 {
        return Ok(Some(Vec::new(alloc)));
    }
    if step == 0 || step > 3 || u64::from(step) > c.problem().steps.value {
        return Ok(None);
    }
    old_numbers(alloc, c, plan, step)
}

/// The values of all slots of a step; no values where an old slot holds a variable.
pub(crate) fn values(
    alloc: Global,
    c: &Checked,
    plan: &Plan,
    step: u32,
) -> Result<Vec<Option<Value>>, NoMemory>
    requires compiled { IsPlanFor c.now step plan.now }
{
    plans_are_valid();
    let _problem = c.problem();
    let Some(old) = old_values(alloc, c, plan, step)? else {
        return Ok(Vec::new(alloc));
    };
    let job = StepJob::make(alloc, c, plan, step)?;
    run_serially(alloc, &plan.graph, &job, old)
}

/// The same of a step of a text.
pub(crate) fn ran(alloc: Global, text: &str, step: u32) -> Result<Vec<Option<Value>>, Fail> {
    let c = checked(alloc, text)?;
    Ok(run_step(alloc, &c, step)?)
}

fn run_step(alloc: Global, c: &Checked, step: u32) -> Result<Vec<Option<Value>>, NoMemory> {
    match step_plan(alloc, c, step)? {
        Some(plan) => values(alloc, c, &plan, step),
        None => Ok(Vec::new(alloc)),
    }
}
