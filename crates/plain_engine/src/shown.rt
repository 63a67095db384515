ghost use Rattle.whole_fields.specs.Shapes.{IsShapesOf};
ghost use Rattle.whole_fields.specs.Stored.{IsWarehouseOf};

use task_check::Checked;
use whole_fields::{Shapes, Warehouse};

/// What the dump shows of a step: the warehouse at its end.
#[derive(Clone, Copy)]
pub(crate) struct StepRows<'a> {
    pub(crate) checked: &'a Checked,
    pub(crate) shapes: &'a Shapes,
    pub(crate) warehouse: &'a Warehouse,
    ghost shaped: { IsShapesOf checked.now shapes.now },
    ghost holds: { IsWarehouseOf checked.now warehouse.now },
}
