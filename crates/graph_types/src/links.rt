//! Graphs with all that follows from who reads and writes what, and from what is kept.
ghost use Rattle.std.specs.Prelude.{◌≡◌, ◌<◌, ◌++◌, ◌∷◌, [], ℕ, All, IfOk, OnOk, cond, length, map, replicate, slice_index_or};
ghost use Rattle.graph_types.specs.Graph.{has, tasks_of};
ghost use Rattle.graph_types.specs.Linked.{IsLinkable, all_predecessors, all_successors, linked};
ghost use Rattle.graph_types.specs.Parts.{AreOwners, StandOnce};

use crate::order::leaders_of;
use crate::owners::owners_of;
use crate::uses::uses_of;
use crate::{Graph, NoMemory};
use sqlite_items::Items;
use std::alloc::{AllocError, Global};

/// Who waits for whom: for each task its successors, and how many tasks it follows.
#[derive(Debug, Drop)]
struct Links {
    successors: Items<Items<u32>>,
    predecessors: Items<u32>,
}

/// No successors yet.
fn no_successors(alloc: Global, tasks: u32) -> Result<Vec<Items<u32>>, AllocError>
    ensures { IfOk result (λ none. none.items ≡ replicate tasks []) }
{
    let mut none = Vec::new(alloc);
    for _ in 0..tasks {
        none.push(Items::new(alloc))?;
    }
    Ok(none)
}

/// Makes the task a successor of those that it follows.
fn follow(successors: &mut Vec<Items<u32>>, leaders: &[u32], task: u32) -> Result<(), NoMemory>
    requires once { StandOnce leaders.now }
    requires within { All (λ first. first < length successors.old.items) leaders.now }
    ensures size { OnOk result (length successors.new.items ≡ length successors.old.items) }
    ensures followed { OnOk result ((first : ℕ) → first < length successors.old.items → slice_index_or successors.new.items first []
        ≡ slice_index_or successors.old.items first [] ++ cond (has leaders.now first) (task ∷ []) []) }
{
    for first in leaders {
        successors[*first as usize].push(task)?;
    }
    Ok(())
}

/// Who waits for whom, by the table of writers.
fn links_of(alloc: Global, g: &Graph, owners: &[u32]) -> Result<Links, NoMemory>
    requires linkable { IsLinkable g.now }
    requires owners { AreOwners g.now owners.now }
    ensures successors { IfOk result (λ links. links.successors ≡ all_successors g.now) }
    ensures predecessors { IfOk result (λ links. links.predecessors ≡ all_predecessors g.now) }
{
    let mut seen = vec![in alloc; 0; g.tasks as usize]?;
    let mut successors = no_successors(alloc, g.tasks)?;
    let mut predecessors = Items::new(alloc);
    for task in 0..g.tasks {
        let leaders = leaders_of(alloc, g, owners, &mut seen, task)?;
        follow(&mut successors, &leaders, task)?;
        predecessors.push(leaders.len() as u32)?;
    }
    Ok(Links {
        successors: Items::from_vec(successors),
        predecessors,
    })
}

/// The graph with the successors, predecessors and uses that follow from the rest of it. What the given graph has of these is not
/// looked at. The work grows with the tasks, the slots and the entries of all lists together.
pub fn linked(alloc: Global, g: Graph) -> Result<Graph, NoMemory>
    requires { IsLinkable g }
    ensures { IfOk result (λ all. all ≡ linked g) }
{
    let owners = owners_of(alloc, &g)?;
    let links = links_of(alloc, &g, &owners)?;
    let uses = uses_of(alloc, &g)?;
    Ok(Graph {
        successors: links.successors,
        predecessors: links.predecessors,
        uses,
        ..g
    })
}
