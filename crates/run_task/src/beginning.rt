//! The beginning of a detailed task, which takes all memory that it needs.
ghost use Rattle.std.specs.Prelude.{◌≡◌, ◌<◌, [], IfOk, Some, length, slice_get};
ghost use Rattle.problem_types.specs.Lists.{task_list};
ghost use Rattle.task_check.specs.Plan.{Combining, OnPatch};
ghost use Rattle.graph_compiler.specs.Slots.{IsNumberOf, IsRunOn};
ghost use Rattle.run_task.specs.Gathered.{AreWindows, HasGathered, HasRoom, IsCombiningWork, IsPatchWork, IsWork};
ghost use Rattle.run_task.specs.Sites.{IsSiteOf};

use crate::job::StepJob;
use crate::parts::{numbers_for, parts_for};
use crate::places::{detail_at, site_of, task_at};
use crate::pushing::put;
use crate::room::{outputs_for, places_for};
use crate::work::{CombiningWork, PatchWork, Site, Work};
use field_box::Value;
use graph_compiler::details_are_of_lists;
use graph_types::NoMemory;
use kernel_eval::Windows;
use problem_lookup::fold_of;
use problem_types::{Task, Write};
use reductions::identity;
use std::alloc::Global;
use task_check::accepted_problems_are_bounded;

/// What a detailed task on a patch sees.
fn windows_for(job: &StepJob, site: Site, task: &Task) -> Result<Windows, NoMemory>
    requires { IsSiteOf job.now site task.now }
    ensures { IfOk result (AreWindows job.now.checked.now task.now site []) }
{
    let parts = parts_for(job, site, task)?;
    let numbers = numbers_for(job.alloc, task)?;
    Ok(Windows {
        parts,
        numbers,
        level: site.level,
        material: site.material,
        step: site.step,
    })
}

/// What a detailed task on a patch has gathered at its beginning.
fn patch_work(job: &StepJob, site: Site, task: &Task) -> Result<PatchWork, NoMemory>
    requires { IsSiteOf job.now site task.now }
    ensures { IfOk result (IsPatchWork job.now.checked.now task.now site []) }
{
    accepted_problems_are_bounded();
    let windows = windows_for(job, site, task)?;
    let outputs = outputs_for(job, site, task)?;
    let scratch = vec![in job.alloc; 0; places_for(job, site)]?;
    Ok(PatchWork {
        windows,
        outputs,
        scratch,
    })
}

/// Room for one number.
fn one_number(alloc: Global) -> Result<Vec<Value>, NoMemory>
    ensures { IfOk result (λ outputs. length outputs.items ≡ 1) }
{
    let mut outputs = Vec::new(alloc);
    put(&mut outputs, Value::Number(0))?;
    Ok(outputs)
}

/// What a detailed task that combines the parts of a line has gathered at its beginning.
fn combining_work(job: &StepJob, write: &Write) -> Result<CombiningWork, NoMemory>
    ensures { IfOk result (IsCombiningWork job.now.checked.now job.now.step write.now []) }
{
    let fold = fold_of(job.checked.problem(), write.name);
    let outputs = one_number(job.alloc)?;
    Ok(CombiningWork {
        fold,
        number: identity(fold),
        outputs,
    })
}

/// The line of this number of those that a task writes.
fn line_at(task: &Task, line: u32) -> &Write
    requires { line < length task.now.writes }
    ensures { slice_get task.now.writes line ≡ Some result.now }
{
    &task.writes.as_slice()[line as usize]
}

/// Begins a detailed task on a patch.
fn begin_on_patch(job: &StepJob, site: Site) -> Result<Work, NoMemory>
    requires step { site.step ≡ job.now.step }
    requires runs { IsRunOn job.now.checked.now (task_list job.now.checked.now job.now.step) site.task site.level site.material site.patch }
    ensures { IfOk result (IsWork job.now.checked.now job.now.step (OnPatch site.task site.level site.material site.patch) []) }
{
    let _p = job.checked.problem();
    let work = patch_work(job, site, task_at(job, site.task))?;
    Ok(Work::Patch(work))
}

/// Begins a detailed task that combines the parts of a line.
fn begin_combining(job: &StepJob, task: u32, line: u32) -> Result<Work, NoMemory>
    requires { IsNumberOf (task_list job.now.checked.now job.now.step) task line }
    ensures { IfOk result (IsWork job.now.checked.now job.now.step (Combining task line) []) }
{
    let _p = job.checked.problem();
    let write = line_at(task_at(job, task), line);
    let work = combining_work(job, write)?;
    Ok(Work::Combining(work))
}

/// Begins a detailed task: takes all memory that it needs.
pub(crate) fn begin(job: &StepJob, task: u32) -> Result<Work, NoMemory>
    requires { task < job.now.plan.now.graph.tasks }
    ensures { IfOk result (HasGathered job.now.checked.now job.now.step task 0) }
{
    details_are_of_lists();
    let detail = detail_at(job, task);
    match detail.combine {
        Some(line) => begin_combining(job, detail.task, line),
        None => begin_on_patch(job, site_of(job, detail)),
    }
}
