ghost use Rattle.std.specs.Prelude.{All};
ghost use Rattle.problem_types.specs.Lists.{task_list};
ghost use Rattle.whole_fields.specs.Shapes.{IsShapesOf};
ghost use Rattle.whole_fields.specs.Stored.{IsWarehouseOf};
ghost use Rattle.plain_engine.specs.Runnable.{IsRunnable};

use std::alloc::Global;
use task_check::Checked;
use whole_fields::{Shapes, Warehouse};

/// A step of a run: its number, and the warehouse of the end of the step before.
#[derive(Clone, Copy)]
pub(crate) struct Step<'a> {
    pub(crate) alloc: Global,
    pub(crate) checked: &'a Checked,
    pub(crate) shapes: &'a Shapes,
    pub(crate) number: u32,
    pub(crate) old: &'a Warehouse,
    /// How many places of scratch its kernels need at most.
    pub(crate) places: usize,
    ghost shaped: { IsShapesOf checked.now shapes.now },
    ghost old_holds: { IsWarehouseOf checked.now old.now },
    ghost runnable: { All (IsRunnable checked.now places) (task_list checked.now number) },
}
