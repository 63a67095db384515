ghost use Rattle.std.specs.Prelude.{◌≡◌, List, [], ◌∷◌, ◌++◌, map, option_map, slice_get, slice_index_or};
ghost use Rattle.std.specs.List.{flat_map};
ghost use Rattle.std.specs.Option.{option_copied};
ghost use Rattle.sched_core.specs.declared.act.Act.TheVariants as act;
ghost use Rattle.graph_types.specs.Graph.{reads_of, writes_of, successors_of};
ghost use Rattle.sched_core.specs.Core.{reading, lowering, script};

use graph_types::Graph;
use sqlite_items::{Items, at};

/// What a task does at one place of its script.
#[derive(Clone, Copy, Debug, PartialEq, Eq)]
pub enum Act {
    /// Takes the turn of a slot that it reads.
    Opens(u32),
    /// Gives the turn of this slot back.
    Closes(u32),
    /// Makes the slots that it writes readable.
    Publishes,
    /// Lowers the count of a slot that it read or wrote.
    LowersUse(u32),
    /// Lowers the count of what a task that follows it still waits for.
    LowersSuccessor(u32),
    /// Ends, with all else behind it.
    Finishes,
}

/// The list of a task; none for a number that no task has.
#[tactic(auto, using(crate::proofs::Lists::missing_or))]
pub(crate) fn listed(lists: &[Items<u32>], task: u32) -> &[u32]
    ensures { result.now ≡ slice_index_or lists.now task [] }
{
    match at(lists, task as usize) {
        Some(numbers) => numbers.as_slice(),
        None => &[],
    }
}

#[tactic(auto, using(crate::proofs::Places::reading_none, crate::proofs::Places::reading_opens, crate::proofs::Places::reading_closes))]
fn reading_at(slots: &[u32], place: usize) -> Option<Act>
    ensures { result ≡ slice_get (flat_map reading slots.now) place }
{
    let Some(slot) = at(slots, place / 2) else {
        return None;
    };
    if place % 2 == 0 {
        Some(Act::Opens(*slot))
    } else {
        Some(Act::Closes(*slot))
    }
}

fn number_at(first: &[u32], second: &[u32], place: usize) -> Option<u32>
    ensures { result ≡ slice_get (first.now ++ second.now) place }
{
    if place < first.len() {
        first.get(place).copied()
    } else {
        second.get(place - first.len()).copied()
    }
}

fn use_at(reads: &[u32], writes: &[u32], place: usize) -> Option<Act>
    ensures { result ≡ slice_get (map act.LowersUse (reads.now ++ writes.now)) place }
{
    number_at(reads, writes, place).map(|slot| Act::LowersUse(slot))
}

#[tactic(auto, using(crate::proofs::Places::end_finishes, crate::proofs::Places::end_lowers))]
fn end_at(successors: &[u32], place: usize) -> Option<Act>
    ensures { result ≡ slice_get (map act.LowersSuccessor successors.now ++ act.Finishes ∷ []) place }
{
    if place == successors.len() {
        return Some(Act::Finishes);
    }
    successors
        .get(place)
        .map(|task| Act::LowersSuccessor(*task))
}

#[tactic(auto, using(crate::proofs::Places::lowering_use, crate::proofs::Places::lowering_end))]
fn lowering_at(graph: &Graph, task: u32, place: usize) -> Option<Act>
    ensures { result ≡ slice_get (lowering graph.now task ++ act.Finishes ∷ []) place }
{
    let reads = listed(graph.reads.as_slice(), task);
    let writes = listed(graph.writes.as_slice(), task);
    let uses = reads.len() + writes.len();
    if place < uses {
        use_at(reads, writes, place)
    } else {
        end_at(listed(graph.successors.as_slice(), task), place - uses)
    }
}

/// What a task does at a place of its script, if the script has this place.
#[tactic(auto, using(crate::proofs::Places::script_reading, crate::proofs::Places::script_publish, crate::proofs::Places::script_behind))]
pub fn act_at(graph: &Graph, task: u32, place: u32) -> Option<Act>
    ensures { result ≡ slice_get (script graph.now task) place }
{
    let reads = listed(graph.reads.as_slice(), task);
    let place = place as usize;
    if place / 2 < reads.len() {
        return reading_at(reads, place);
    }
    let place = place - 2 * reads.len();
    if place == 0 {
        Some(Act::Publishes)
    } else {
        lowering_at(graph, task, place - 1)
    }
}
