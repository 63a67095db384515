//! The compiler.
ghost use Rattle.std.specs.Prelude.{◌≡◌, IfOk};
ghost use Rattle.problem_types.specs.Form.{IsProblemInForm};
ghost use Rattle.task_check.specs.Bounds.{IsBounded};
ghost use Rattle.task_check.specs.First.{IsAccepted};
ghost use Rattle.graph_types.specs.Linked.{IsLinkable, linked};
ghost use Rattle.graph_compiler.specs.Kinds.{list_number, tasks_in};
ghost use Rattle.graph_compiler.specs.Places.{AreOldSlots};
ghost use Rattle.graph_compiler.specs.Plan.{plan_of, unlinked};

use crate::details::detailed_tasks;
use crate::kept::kept_slots;
use crate::layout::layouts;
use crate::old_reads::old_reads;
use crate::old_slots::{OldSlots, old_slots};
use crate::plan::{ListKind, Plan, StepKind};
use crate::reads::all_reads;
use crate::writes::all_writes;
use crate::written::put_written;
use graph_types::{Graph, linked};
use problem_types::{NoMemory, Problem, Task};
use sqlite_items::Items;
use std::alloc::Global;
use task_check::{Checked, bounds};

/// The number of a list: 0 for the list of step 0, 1 for that of each later step.
fn list_number(list: ListKind) -> u32
    ensures { result ≡ list_number list }
{
    match list {
        ListKind::Init => 0,
        ListKind::Timestep => 1,
    }
}

/// The tasks of a list.
fn tasks_in(p: &Problem, list: ListKind) -> &[Task]
    ensures { result.now ≡ tasks_in p.now list }
{
    match list {
        ListKind::Init => p.init.as_slice(),
        ListKind::Timestep => p.timestep.as_slice(),
    }
}

/// The slots of the step before that the tasks of a list read.
fn slots_before(alloc: Global, p: &Problem, list: ListKind) -> Result<OldSlots, NoMemory>
    requires form { IsProblemInForm p.now }
    requires accepted { IsAccepted p.now }
    requires limits { IsBounded p.now }
    ensures { IfOk result (λ old. AreOldSlots p.now (tasks_in p.now list) old) }
{
    let read = old_reads(alloc, p, list_number(list))?;
    old_slots(alloc, read)
}

/// The graph of these reads, writes and kept slots.
fn graph_of(
    alloc: Global,
    old: u32,
    reads: Items<Items<u32>>,
    writes: Items<Items<u32>>,
    kept: Items<bool>,
) -> Result<Graph, NoMemory>
    requires { IsLinkable (unlinked old reads writes kept) }
    ensures { IfOk result (λ graph. graph ≡ linked (unlinked old reads writes kept)) }
{
    let graph = Graph {
        tasks: reads.len() as u32,
        old,
        slots: kept.len() as u32,
        reads,
        writes,
        successors: Items::new(alloc),
        predecessors: Items::new(alloc),
        uses: Items::new(alloc),
        kept,
    };
    linked(alloc, graph).map_err(|_| NoMemory)
}

/// The plan of the tasks of a list, for a kind of steps.
fn plan_of(alloc: Global, p: &Problem, tasks: &[Task], kind: StepKind) -> Result<Plan, NoMemory>
    requires form { IsProblemInForm p.now }
    requires accepted { IsAccepted p.now }
    requires limits { IsBounded p.now }
    requires tasks { tasks.now ≡ tasks_in p.now kind.list }
    ensures { IfOk result (λ plan. plan ≡ plan_of p.now kind) }
{
    let details = detailed_tasks(alloc, p, tasks)?;
    let before = slots_before(alloc, p, kind.list)?;
    let old = before.slots.len() as u32;
    let layouts = layouts(alloc, p, tasks, old)?;
    let reads = all_reads(alloc, p, tasks, layouts.as_slice(), &before)?;
    let writes = all_writes(alloc, layouts.as_slice())?;
    let mut slots = before.slots;
    put_written(alloc, &mut slots, p, tasks)?;
    let next = old_reads(alloc, p, 1)?;
    let kept = kept_slots(alloc, p, tasks, kind, &next, slots.as_slice())?;
    let graph = graph_of(alloc, old, reads, writes, kept)?;
    Ok(Plan {
        graph,
        tasks: details,
        slots,
    })
}

/// The plan of a list of a checked problem, for a kind of steps. The work grows with the detailed tasks, the slots and the reads together,
/// and with one search of patches for each kind of window on a level.
pub fn compile(alloc: Global, c: &Checked, kind: StepKind) -> Result<Plan, NoMemory>
    ensures { IfOk result (λ plan. plan ≡ plan_of c.now kind) }
{
    bounds(c);
    let p = c.problem();
    plan_of(alloc, p, tasks_in(p, kind.list), kind)
}
