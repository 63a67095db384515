ghost use Rattle.std.specs.Prelude.{◌↔◌, IfOk, IsTrue};
ghost use Rattle.graph_types.specs.Graph.{IsValid};

use crate::lists::has_lists;
use crate::order::are_tasks_ordered;
use crate::slots::are_slots_valid;
use crate::{Graph, NoMemory};
use std::alloc::Global;

/// Whether the graph is valid. The work grows with the tasks, the slots and the entries of all lists together.
pub fn valid(alloc: Global, g: &Graph) -> Result<bool, NoMemory>
    ensures { IfOk result (λ yes. IsTrue yes ↔ IsValid g.now) }
{
    if !has_lists(g) {
        return Ok(false);
    }
    if !are_slots_valid(alloc, g)? {
        return Ok(false);
    }
    are_tasks_ordered(alloc, g)
}
