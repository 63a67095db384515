ghost use Rattle.whole_fields.specs.Shapes.{IsShapesOf};
ghost use Rattle.whole_fields.specs.Stored.{IsWarehouseOf};

use std::alloc::Global;
use task_check::Checked;
use whole_fields::{Shapes, Warehouse};

/// What stands before a task: the warehouse of the end of the step before, and what the tasks before left.
#[derive(Clone, Copy)]
pub(crate) struct Moment<'a> {
    pub(crate) alloc: Global,
    pub(crate) checked: &'a Checked,
    pub(crate) shapes: &'a Shapes,
    pub(crate) step: u32,
    pub(crate) old: &'a Warehouse,
    pub(crate) new: &'a Warehouse,
    /// How many places of scratch its kernels need at most.
    pub(crate) places: usize,
    ghost shaped: { IsShapesOf checked.now shapes.now },
    ghost old_holds: { IsWarehouseOf checked.now old.now },
    ghost new_holds: { IsWarehouseOf checked.now new.now },
}
