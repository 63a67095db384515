//! Moments of a run, and where kernels run.
ghost use Rattle.std.specs.Prelude.{◌≡◌, ◌<◌, ◌+◌, ◌-◌, Some, length, slice_get};
ghost use Rattle.problem_types.specs.Lists.{task_list};
ghost use Rattle.problem_types.specs.Regions.{moved, offset_of, ratio_of, coarse_index};
ghost use Rattle.uts_model.specs.Grids.{IsSameOrFar};
ghost use Rattle.uts_model.specs.Moments.{moment_of, end_before, IsPlace};

use crate::grid::{coarse_index, moved};
use problem_lookup::task_list;
use problem_types::{Problem, Store, Task};
use uts_geom::Index;

/// A moment of a run.
#[derive(Clone, Copy)]
pub(crate) enum Moment {
    /// Before the first step.
    BeforeSteps,
    /// In a step, after so many tasks of its list.
    InStep { step: u32, tasks: usize },
}

/// An index on a level, for a material.
#[derive(Clone, Copy)]
pub(crate) struct Site {
    pub material: u32,
    pub level: u32,
    pub index: Index,
}

/// Where a kernel of a task runs: at a site, after so many tasks of the step's list.
#[derive(Clone, Copy)]
pub(crate) struct Place<'a> {
    pub problem: &'a Problem,
    pub step: u32,
    pub tasks: usize,
    pub site: Site,
}

/// A task of a step by its place.
pub(crate) fn task_at(problem: &Problem, step: u32, place: usize) -> &Task
    requires { place < length (task_list problem.now step) }
    ensures { slice_get (task_list problem.now step) place ≡ Some result.now }
{
    &task_list(problem, step)[place]
}

/// When the numbers that a kernel reads from a store stood.
pub(crate) fn moment_of(place: &Place, store: Store) -> Moment
    ensures { result ≡ moment_of place.now store }
{
    match store {
        Store::New => Moment::InStep {
            step: place.step,
            tasks: place.tasks,
        },
        Store::Old => end_before(place.problem, place.step),
    }
}

/// The end of the step before.
fn end_before(problem: &Problem, step: u32) -> Moment
    ensures { result ≡ end_before problem.now step }
{
    if step == 0 {
        return Moment::BeforeSteps;
    }
    Moment::InStep {
        step: step - 1,
        tasks: task_list(problem, step - 1).len(),
    }
}

/// The site by an offset from where a kernel runs.
pub(crate) fn beside(place: &Place, by: [i64; 3]) -> Site
    ensures material { result.material ≡ place.now.site.material }
    ensures level { result.level ≡ place.now.site.level }
    ensures index { IsSameOrFar result.index (moved place.now.site.index (offset_of by)) }
{
    Site {
        index: moved(place.site.index, by),
        material: place.site.material,
        level: place.site.level,
    }
}

/// The site on the next coarser level by an offset from where a kernel runs.
pub(crate) fn below(place: &Place, by: [i64; 3]) -> Site
    requires { IsPlace place.now }
    ensures material { result.material ≡ place.now.site.material }
    ensures level { result.level ≡ place.now.site.level - 1 }
    ensures index { IsSameOrFar result.index
        (moved (coarse_index (ratio_of place.now.problem.now place.now.site.level) place.now.site.index) (offset_of by)) }
{
    let index = coarse_index(place.problem, place.site.level, place.site.index);
    Site {
        index: moved(index, by),
        material: place.site.material,
        level: place.site.level.saturating_sub(1),
    }
}

/// A site on the next finer level, for the material of a kernel.
pub(crate) fn above(place: &Place, index: Index) -> Site
    requires { IsPlace place.now }
    ensures { result ≡ record { material = place.now.site.material; level = place.now.site.level + 1; index = index } }
{
    Site {
        index,
        material: place.site.material,
        level: place.site.level + 1,
    }
}
