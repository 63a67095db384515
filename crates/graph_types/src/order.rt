//! The rules of successors and predecessors. One walk over the tasks, in order, finds for each those that it follows,
//! and counts how many followers each task has had.
ghost use Rattle.std.specs.Prelude.{◌≡◌, ◌≤◌, ◌<◌, ◌+◌, ◌==◌, ◌||◌, ◌↔◌, ℕ, Some, IfOk, IsTrue, OnOk, All, length, slice_get, slice_index};
ghost use Rattle.std.specs.List.{list_any};
ghost use Rattle.graph_types.specs.Graph.{AreTasksOrdered, AreSlotsValid, has, successors_of};
ghost use Rattle.graph_types.specs.Linked.{IsLinkable};
ghost use Rattle.graph_types.specs.Parts.{AreFollowersCounted, AreLeaders, AreNoted, AreOwners, HasLists, IsTaskOrdered, followers_before};

use crate::lists::list_at;
use crate::owners::owners_of;
use crate::tables::raise;
use crate::{Graph, NoMemory};
use std::alloc::{AllocError, Global};

/// Notes the owner of a slot, where it is a task and is not noted. `seen` has the mark for the tasks that are noted.
fn note(found: &mut Vec<u32>, seen: &mut [u32], owner: u32, mark: u32) -> Result<(), NoMemory>
    requires { AreNoted seen.old mark found.old.items }
    ensures noted { OnOk result (AreNoted seen.new mark found.new.items) }
    ensures found { OnOk result ((task : ℕ) → task < length seen.old → has found.new.items task ≡ (has found.old.items task || (owner == task))) }
{
    if (owner as usize) < seen.len() && seen[owner as usize] != mark {
        seen[owner as usize] = mark;
        found.push(owner).map_err(AllocError::from)?;
    }
    Ok(())
}

/// The tasks that one follows, each once.
pub(crate) fn leaders_of(
    alloc: Global,
    g: &Graph,
    owners: &[u32],
    seen: &mut [u32],
    task: u32,
) -> Result<Vec<u32>, NoMemory>
    requires linkable { IsLinkable g.now }
    requires owners { AreOwners g.now owners.now }
    requires task { task < g.now.tasks }
    requires size { length seen.old ≡ g.now.tasks }
    requires seen { All (λ m. m ≤ task) seen.old }
    ensures leaders { IfOk result (λ leaders. AreLeaders g.now task leaders.items) }
    ensures seen { OnOk result (All (λ m. m ≤ task + 1) seen.new) }
{
    let mut found = Vec::new(alloc);
    for slot in list_at(&g.reads, task) {
        note(&mut found, seen, owners[*slot as usize], task + 1)?;
    }
    Ok(found)
}

/// Whether the next successor of `first` is the task, where so many of its followers stand before.
fn is_next(g: &Graph, before: &[u32], first: u32, task: u32) -> bool
    requires lists { HasLists g.now }
    requires size { length before.now ≡ g.now.tasks }
    requires first { first < g.now.tasks }
    ensures { IsTrue result ↔ (slice_get (successors_of g.now first) (slice_index before.now first) ≡ Some task) }
{
    match list_at(&g.successors, first).get(before[first as usize] as usize) {
        Some(next) => *next == task,
        None => false,
    }
}

fn are_next(g: &Graph, before: &[u32], leaders: &[u32], task: u32) -> bool
    requires lists { HasLists g.now }
    requires size { length before.now ≡ g.now.tasks }
    requires leaders { All (λ first. first < g.now.tasks) leaders.now }
    ensures { IsTrue result ↔ All (λ first. slice_get (successors_of g.now first) (slice_index before.now first) ≡ Some task) leaders.now }
{
    for first in leaders {
        if !is_next(g, before, *first, task) {
            return false;
        }
    }
    true
}

fn stand_before(leaders: &[u32], task: u32) -> bool
    ensures { IsTrue result ↔ All (λ first. first < task) leaders.now }
{
    leaders.iter().all(|first| *first < task)
}

fn knows_how_many(g: &Graph, leaders: &[u32], task: u32) -> bool
    requires lists { HasLists g.now }
    requires task { task < g.now.tasks }
    ensures { IsTrue result ↔ (length leaders.now ≡ slice_index g.now.predecessors task) }
{
    leaders.len() == g.predecessors.as_slice()[task as usize] as usize
}

/// Whether the task follows only tasks before it, knows how many, and is the next successor of each.
fn fits_leaders(g: &Graph, before: &[u32], leaders: &[u32], task: u32) -> bool
    requires lists { HasLists g.now }
    requires task { task < g.now.tasks }
    requires before { AreFollowersCounted g.now task before.now }
    requires leaders { AreLeaders g.now task leaders.now }
    ensures { IsTrue result ↔ IsTaskOrdered g.now task }
{
    if !stand_before(leaders, task) {
        return false;
    }
    if !knows_how_many(g, leaders, task) {
        return false;
    }
    are_next(g, before, leaders, task)
}

/// Whether the task keeps the rules with those that it follows, which are counted then.
fn is_task_ordered(
    alloc: Global,
    g: &Graph,
    owners: &[u32],
    seen: &mut [u32],
    before: &mut [u32],
    task: u32,
) -> Result<bool, NoMemory>
    requires lists { HasLists g.now }
    requires slots { AreSlotsValid g.now }
    requires owners { AreOwners g.now owners.now }
    requires task { task < g.now.tasks }
    requires size { length seen.old ≡ g.now.tasks }
    requires seen { All (λ m. m ≤ task) seen.old }
    requires before { AreFollowersCounted g.now task before.old }
    ensures ordered { IfOk result (λ yes. IsTrue yes ↔ IsTaskOrdered g.now task) }
    ensures seen { OnOk result (All (λ m. m ≤ task + 1) seen.new) }
    ensures before { OnOk result (AreFollowersCounted g.now (task + 1) before.new) }
{
    let leaders = leaders_of(alloc, g, owners, seen, task)?;
    let fits = fits_leaders(g, before, &leaders, task);
    raise(before, &leaders);
    Ok(fits)
}

/// Whether each task has as many successors as followers.
fn are_complete(g: &Graph, followers: &[u32]) -> bool
    requires lists { HasLists g.now }
    requires followers { AreFollowersCounted g.now g.now.tasks followers.now }
    ensures { IsTrue result ↔ ((task : ℕ) → task < g.now.tasks → length (successors_of g.now task) ≡ followers_before g.now task g.now.tasks) }
{
    for task in 0..g.tasks {
        if list_at(&g.successors, task).len() != followers[task as usize] as usize {
            return false;
        }
    }
    true
}

/// Walks over the tasks. No task is marked yet, and no follower is counted.
fn are_ordered(
    alloc: Global,
    g: &Graph,
    owners: &[u32],
    seen: &mut [u32],
    before: &mut [u32],
) -> Result<bool, NoMemory>
    requires lists { HasLists g.now }
    requires slots { AreSlotsValid g.now }
    requires owners { AreOwners g.now owners.now }
    requires size { length seen.old ≡ g.now.tasks }
    requires seen { All (λ m. m ≤ 0) seen.old }
    requires before { AreFollowersCounted g.now 0 before.old }
    ensures { IfOk result (λ yes. IsTrue yes ↔ AreTasksOrdered g.now) }
{
    for task in 0..g.tasks {
        if !is_task_ordered(alloc, g, owners, seen, before, task)? {
            return Ok(false);
        }
    }
    Ok(are_complete(g, before))
}

/// Whether the successors and predecessors are those that reads and writes give, and each successor stands behind.
pub(crate) fn are_tasks_ordered(alloc: Global, g: &Graph) -> Result<bool, NoMemory>
    requires lists { HasLists g.now }
    requires slots { AreSlotsValid g.now }
    ensures { IfOk result (λ yes. IsTrue yes ↔ AreTasksOrdered g.now) }
{
    let owners = owners_of(alloc, g)?;
    let mut seen = vec![in alloc; 0; g.tasks as usize]?;
    let mut before = vec![in alloc; 0; g.tasks as usize]?;
    are_ordered(alloc, g, &owners, &mut seen, &mut before)
}
