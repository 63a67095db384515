//! For each task the tasks that have it among their successors.
ghost use Rattle.std.specs.Prelude.{◌≡◌, ◌<◌, ◌++◌, ◌∷◌, [], ℕ, List, Bool, All, IfOk, OnOk, length, map, replicate, if◌then◌else◌};
ghost use Rattle.std.specs.List.{range_with_len};
ghost use Rattle.graph_text.specs.Predecessors.{IsNotedAt, noted, predecessors_of};

use crate::NoMemory;
use crate::lists::list_at;
use graph_types::Graph;
use sqlite_items::Items;
use std::alloc::{AllocError, Global};

/// Whether the list ends in the number.
fn ends_in(numbers: &[u32], number: u32) -> bool
    ensures { (front : List ℕ) (is_last : Bool) → All (λ n. n < number) front → numbers.now ≡ noted is_last number front → result ≡ is_last }
{
    match numbers.last() {
        Some(last) => *last == number,
        None => false,
    }
}

/// Puts the number behind lesser ones, where it does not stand there yet.
fn put_once(numbers: &mut Items<u32>, number: u32) -> Result<(), AllocError>
    ensures { OnOk result ((front : List ℕ) (is_last : Bool) → All (λ n. n < number) front
        → numbers.old ≡ noted is_last number front → numbers.new ≡ front ++ number ∷ []) }
{
    if !ends_in(numbers.as_slice(), number) {
        numbers.push(number)?;
    }
    Ok(())
}

/// Notes the task at a successor: in its list, if there is one.
fn note_at(lists: &mut [Items<u32>], task: u32, successor: u32) -> Result<(), AllocError>
    ensures { OnOk result ((old : List (List ℕ)) (successors : List ℕ) → All (All (λ n. n < task)) old
        → IsNotedAt task successors old lists.old → IsNotedAt task (successors ++ successor ∷ []) old lists.new) }
{
    if (successor as usize) < lists.len() {
        put_once(&mut lists[successor as usize], task)?;
    }
    Ok(())
}

/// Notes the task at each of its successors.
fn note(lists: &mut [Items<u32>], task: u32, successors: &[u32]) -> Result<(), AllocError>
    requires { All (All (λ n. n < task)) lists.old }
    ensures { OnOk result (IsNotedAt task successors.now lists.old lists.new) }
{
    for successor in successors {
        note_at(lists, task, *successor)?;
    }
    Ok(())
}

/// So many empty lists.
fn empty_lists(alloc: Global, count: usize) -> Result<Vec<Items<u32>>, NoMemory>
    ensures { IfOk result (λ lists. lists.items ≡ replicate count []) }
{
    let mut lists = Vec::new(alloc);
    for _so_far in 0..count {
        lists.push(Items::new(alloc))?;
    }
    Ok(lists)
}

/// For each of the first `count` tasks of a graph those that have it among their successors. The work grows with the tasks and the
/// entries of all successors together.
pub(crate) fn predecessors(
    alloc: Global,
    g: &Graph,
    count: usize,
) -> Result<Items<Items<u32>>, NoMemory>
    ensures { IfOk result (λ lists. lists ≡ map (predecessors_of g.now) (range_with_len 0 count)) }
{
    let mut lists = empty_lists(alloc, count)?;
    for task in 0..g.tasks {
        note(&mut lists, task, list_at(&g.successors, task as usize))?;
    }
    Ok(Items::from_vec(lists))
}
