ghost use Rattle.std.specs.Prelude.{ℕ, All};
ghost use Rattle.problem_types.specs.Lists.{task_list};
ghost use Rattle.whole_fields.specs.Shapes.{IsShapesOf};
ghost use Rattle.plain_engine.specs.Runnable.{IsRunnable};

use std::alloc::Global;
use task_check::Checked;
use whole_fields::Shapes;

/// What stays the same over a run.
#[derive(Clone, Copy)]
pub(crate) struct Plan<'a> {
    pub(crate) alloc: Global,
    pub(crate) checked: &'a Checked,
    pub(crate) shapes: &'a Shapes,
    /// How many places of scratch its kernels need at most.
    pub(crate) places: usize,
    ghost shaped: { IsShapesOf checked.now shapes.now },
    ghost runnable: { (number : ℕ) → All (IsRunnable checked.now places) (task_list checked.now number) },
}
