//! How often slots are used.
ghost use Rattle.std.specs.Prelude.{◌≡◌, IfOk};
ghost use Rattle.graph_types.specs.Linked.{IsLinkable, all_uses};

use crate::slots::use_count;
use crate::tables::counts;
use crate::{Graph, NoMemory};
use sqlite_items::Items;
use std::alloc::Global;

/// For each slot how many tasks read it, 1 more where a task writes it, and 1 more where it is kept.
pub(crate) fn uses_of(alloc: Global, g: &Graph) -> Result<Items<u32>, NoMemory>
    requires { IsLinkable g.now }
    ensures { IfOk result (λ uses. uses ≡ all_uses g.now) }
{
    let readers = counts(alloc, g.slots, g.reads.as_slice())?;
    let writers = counts(alloc, g.slots, g.writes.as_slice())?;
    let mut uses = Items::new(alloc);
    for slot in 0..g.slots {
        let i = slot as usize;
        uses.push(use_count(readers[i], writers[i], g.kept.as_slice()[i]))?;
    }
    Ok(uses)
}
