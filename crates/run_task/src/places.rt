//! What the numbers of a plan stand for.
ghost use Rattle.std.specs.Prelude.{◌≡◌, ◌<◌, ℕ, Some, IfSome, length, slice_get};
ghost use Rattle.problem_types.specs.Lists.{task_list};
ghost use Rattle.graph_types.specs.Graph.{reads_of};
ghost use Rattle.graph_compiler.specs.Shown.{shown_slot, shown_task};
ghost use Rattle.task_check.specs.Plan.{Detail as DetailedTask, Slot as TaskSlot, details_of};
ghost use Rattle.run_task.specs.Gathered.{slots_read};

use crate::job::StepJob;
use crate::work::Site;
use graph_compiler::{Detail, Slot};
use problem_lookup::task_list;
use problem_types::Task;

/// The detailed task of this number.
pub(crate) fn detail_at(job: &StepJob, task: u32) -> Detail
    requires { task < job.now.plan.now.graph.tasks }
    ensures { (d : DetailedTask) × (slice_get (details_of job.now.checked.now (task_list job.now.checked.now job.now.step)) task ≡ Some d) × (result ≡ shown_task d) }
{
    job.plan.tasks.as_slice()[task as usize]
}

/// Where a detailed task runs.
pub(crate) fn site_of(job: &StepJob, detail: Detail) -> Site
    ensures { result ≡ record { step = job.now.step; task = detail.task; level = detail.level; material = detail.material; patch = detail.patch } }
{
    Site {
        step: job.step,
        task: detail.task,
        level: detail.level,
        material: detail.material,
        patch: detail.patch,
    }
}

/// The task at a place of the step's list.
pub(crate) fn task_at<'a>(job: &StepJob<'a>, place: u32) -> &'a Task
    requires { place < length (task_list job.now.checked.now job.now.step) }
    ensures { slice_get (task_list job.now.checked.now job.now.step) place ≡ Some result.now }
{
    &task_list(job.checked.problem(), job.step)[place as usize]
}

/// The slot of a read of a detailed task.
pub(crate) fn slot_at(job: &StepJob, task: u32, k: usize) -> Slot
    requires task { task < job.now.plan.now.graph.tasks }
    requires read { k < length (reads_of job.now.plan.now.graph task) }
    ensures { (d : DetailedTask) → slice_get (details_of job.now.checked.now (task_list job.now.checked.now job.now.step)) task ≡ Some d
        → (s : TaskSlot) × (slice_get (slots_read job.now.checked.now job.now.step d) k ≡ Some s)
        × (result ≡ shown_slot (task_list job.now.checked.now job.now.step) s) }
{
    let reads = job.plan.graph.reads.as_slice()[task as usize].as_slice();
    job.plan.slots.as_slice()[reads[k] as usize]
}
