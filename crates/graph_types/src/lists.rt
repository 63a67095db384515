//! The lengths and limits of a graph, and its lists of slots.
ghost use Rattle.std.specs.Prelude.{◌≡◌, ◌≤◌, ◌<◌, ◌↔◌, IsTrue, All, length, slice_index_or, []};
ghost use Rattle.std.specs.List.{sum_by};
ghost use Rattle.std.specs.List.Sorted.{IsStrictlyIncreasing};
ghost use Rattle.graph_types.specs.Graph.{HasLengths, IsSlotList, IsWithinLimits};
ghost use Rattle.graph_types.specs.Parts.{HasLists};

use crate::Graph;
use sqlite_items::Items;

/// The list of one task.
pub(crate) fn list_at(lists: &Items<Items<u32>>, task: u32) -> &[u32]
    requires { task < length lists.now }
    ensures { result.now ≡ slice_index_or lists.now task [] }
{
    lists.as_slice()[task as usize].as_slice()
}

/// Whether each number is below the next.
fn ascend(numbers: &[u32]) -> bool
    ensures { IsTrue result ↔ IsStrictlyIncreasing numbers.now }
{
    for i in 1..numbers.len() {
        if numbers[i - 1] >= numbers[i] {
            return false;
        }
    }
    true
}

fn are_below(numbers: &[u32], bound: u32) -> bool
    ensures { IsTrue result ↔ All (λ n. n < bound) numbers.now }
{
    numbers.iter().all(|n| *n < bound)
}

/// Whether the numbers are ascending ones of slots.
fn is_slot_list(slots: u32, numbers: &[u32]) -> bool
    ensures { IsTrue result ↔ IsSlotList slots numbers.now }
{
    ascend(numbers) && are_below(numbers, slots)
}

fn are_slot_lists(slots: u32, lists: &[Items<u32>]) -> bool
    ensures { IsTrue result ↔ All (IsSlotList slots) lists.now }
{
    for numbers in lists {
        if !is_slot_list(slots, numbers.as_slice()) {
            return false;
        }
    }
    true
}

/// Whether the lists together are at most 2,097,152 numbers long.
fn are_reads_few(lists: &[Items<u32>]) -> bool
    ensures { IsTrue result ↔ (sum_by length lists.now ≤ 2097152) }
{
    let mut left: usize = 2097152;
    for numbers in lists {
        if left < numbers.len() {
            return false;
        }
        left -= numbers.len();
    }
    true
}

fn has_lengths(g: &Graph) -> bool
    ensures { IsTrue result ↔ HasLengths g.now }
{
    g.reads.len() == g.tasks as usize
        && g.writes.len() == g.tasks as usize
        && g.successors.len() == g.tasks as usize
        && g.predecessors.len() == g.tasks as usize
        && g.uses.len() == g.slots as usize
        && g.kept.len() == g.slots as usize
        && g.old <= g.slots
}

fn is_within_limits(g: &Graph) -> bool
    ensures { IsTrue result ↔ IsWithinLimits g.now }
{
    g.tasks <= 65536 && g.slots <= 262144 && are_reads_few(g.reads.as_slice())
}

/// Whether the lists of the graph have their lengths, keep the limits, and name slots in ascending order.
pub(crate) fn has_lists(g: &Graph) -> bool
    ensures { IsTrue result ↔ HasLists g.now }
{
    if !has_lengths(g) {
        return false;
    }
    if !is_within_limits(g) {
        return false;
    }
    if !are_slot_lists(g.slots, g.reads.as_slice()) {
        return false;
    }
    are_slot_lists(g.slots, g.writes.as_slice())
}
