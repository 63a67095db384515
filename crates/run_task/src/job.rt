//! The tasks of a step as a job.
ghost use Rattle.std.specs.Prelude.{◌≡◌, IfOk, All};
ghost use Rattle.problem_types.specs.Lists.{task_list};
ghost use Rattle.kernel_sweeps.specs.Room.{AreAtMostDeep};
ghost use Rattle.slot_contents.specs.Contents.{contents_of};
ghost use Rattle.slot_contents.specs.Values.{Fits};
ghost use Rattle.run_task.specs.Gathered.{HasGathered};
ghost use Rattle.run_task.specs.Jobs.{IsPlanFor, ShowsList};

use crate::beginning::begin;
use crate::gathering::gather;
use crate::running::run;
use crate::work::Work;
use field_box::Value;
use graph_compiler::Plan;
use graph_types::{NoMemory, Wants};
use kernel_sweeps::deepest_kernel;
use problem_lookup::task_list;
use std::alloc::Global;
use task_check::{Checked, bounds};
use unified_scheduler::Job;

/// The detailed tasks of a step of a checked problem, as a job: what they read, compute and write.
#[derive(Clone, Copy)]
pub struct StepJob<'a> {
    pub(crate) alloc: Global,
    pub(crate) checked: &'a Checked,
    pub(crate) plan: &'a Plan,
    pub(crate) step: u32,
    /// No kernel of the step's tasks is deeper.
    pub(crate) depth: u32,
    ghost shown: { ShowsList checked.now (task_list checked.now step) plan.now },
    ghost deep: { All (AreAtMostDeep depth) (task_list checked.now step) },
}

impl<'a> StepJob<'a> {
    /// The job of a step, by the plan that was compiled for it. The memory of detailed tasks comes from `alloc`.
    pub fn make(
        alloc: Global,
        checked: &'a Checked,
        plan: &'a Plan,
        step: u32,
    ) -> Result<StepJob<'a>, NoMemory>
        requires compiled { IsPlanFor checked.now step plan.now }
        ensures checked { IfOk result (λ job. job.checked.now ≡ checked.now) }
        ensures plan { IfOk result (λ job. job.plan.now ≡ plan.now) }
        ensures step { IfOk result (λ job. job.step ≡ step) }
    {
        bounds(checked);
        let p = checked.problem();
        let depth = deepest_kernel(task_list(p, step), p.names.len());
        Ok(StepJob {
            alloc,
            checked,
            plan,
            step,
            depth,
        })
    }
}

impl Wants for StepJob<'_> {
    type Value = Value;

    ghost graph = { λ job. job.plan.now.graph };

    ghost content = { λ job. contents_of job.checked.now job.step };

    ghost fits = { Fits };
}

impl Job for StepJob<'_> {
    type Work = Work;

    ghost filled = { λ job task gathered work. HasGathered job.checked.now job.step task gathered work };

    fn begin(&self, task: u32) -> Result<Work, NoMemory> {
        begin(self, task)
    }

    fn gather(&self, task: u32, k: usize, value: &Value, work: &mut Work) {
        gather(self, task, k, value, work);
    }

    fn run(&self, task: u32, work: Work) -> Vec<Value> {
        run(self, task, work)
    }
}
