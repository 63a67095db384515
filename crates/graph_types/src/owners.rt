//! Which task writes each slot.
ghost use Rattle.std.specs.Prelude.{◌≡◌, ◌<◌, ℕ, IfOk, All, cond, length, slice_index};
ghost use Rattle.graph_types.specs.Graph.{has};
ghost use Rattle.graph_types.specs.Linked.{IsLinkable};
ghost use Rattle.graph_types.specs.Parts.{AreOwners};

use crate::lists::list_at;
use crate::{Graph, NoMemory};
use std::alloc::Global;

/// Puts the task at each of the numbers.
fn own(owners: &mut [u32], numbers: &[u32], task: u32)
    requires { All (λ n. n < length owners.old) numbers.now }
    ensures { (n : ℕ) → n < length owners.old → slice_index owners.new n ≡ cond (has numbers.now n) task (slice_index owners.old n) }
{
    for n in numbers {
        owners[*n as usize] = task;
    }
}

/// The task that writes each slot, and the number of tasks for an old slot.
pub(crate) fn owners_of(alloc: Global, g: &Graph) -> Result<Vec<u32>, NoMemory>
    requires { IsLinkable g.now }
    ensures { IfOk result (λ owners. AreOwners g.now owners.items) }
{
    let mut owners = vec![in alloc; g.tasks; g.slots as usize]?;
    for task in 0..g.tasks {
        own(&mut owners, list_at(&g.writes, task), task);
    }
    Ok(owners)
}
