//! The tasks of a graph, one after another.
ghost use Rattle.std.specs.Prelude.{◌≡◌, ◌+◌, ◌<◌, [], IfOk, OnOk, length, slice_index_or};
ghost use Rattle.uts_geom.specs.Spans.{counted};
ghost use Rattle.graph_types.specs.Graph.{IsValid};
ghost use Rattle.unified_scheduler.specs.Fitting.{AreFitting};
ghost use Rattle.serial_step.specs.Filled.{AreAllFitting, AreFilledBefore};

use crate::gathering::gather_all;
use crate::putting::{put_all, with_old};
use graph_types::{Graph, NoMemory};
use sqlite_items::Items;
use std::alloc::Global;
use unified_scheduler::Job;

/// The slots that a task reads, or those that it writes.
fn slots_of(lists: &Items<Items<u32>>, task: u32) -> &[u32]
    requires { task < length lists.now }
    ensures { result.now ≡ slice_index_or lists.now task [] }
{
    lists.as_slice()[task as usize].as_slice()
}

/// Runs one task, whose reads are filled, and fills what it writes.
fn run_one<J: Job>(
    graph: &Graph,
    job: &J,
    task: u32,
    places: &mut [Option<J::Value>],
) -> Result<(), NoMemory>
where
    J::Value: Drop,
    requires valid { IsValid graph.now }
    requires graph { graph.now ≡ J.graph job.now }
    requires task { task < graph.now.tasks }
    requires filled { AreFilledBefore J.fits (J.content job.now) graph.now task places.old }
    ensures { OnOk result (AreFilledBefore J.fits (J.content job.now) graph.now (task + 1) places.new) }
{
    let mut work = job.begin(task)?;
    gather_all(job, task, slots_of(&graph.reads, task), places, &mut work);
    put_all(slots_of(&graph.writes, task), job.run(task, work), places);
    Ok(())
}

/// Runs all tasks, in the order of their numbers.
fn run_all<J: Job>(graph: &Graph, job: &J, places: &mut [Option<J::Value>]) -> Result<(), NoMemory>
where
    J::Value: Drop,
    requires valid { IsValid graph.now }
    requires graph { graph.now ≡ J.graph job.now }
    requires filled { AreFilledBefore J.fits (J.content job.now) graph.now 0 places.old }
    ensures { OnOk result (AreAllFitting J.fits (J.content job.now) graph.now.slots places.new) }
{
    for task in 0..graph.tasks {
        run_one(graph, job, task, places)?;
    }
    Ok(())
}

/// Runs the tasks of a graph on one thread, in the order of their numbers. `old` has a value for each old slot. It gives the values of all
/// slots, in their order, and no place is empty.
pub fn run_serially<J: Job>(
    alloc: Global,
    graph: &Graph,
    job: &J,
    old: Vec<J::Value>,
) -> Result<Vec<Option<J::Value>>, NoMemory>
where
    J::Value: Drop,
    requires valid { IsValid graph.now }
    requires graph { graph.now ≡ J.graph job.now }
    requires old { AreFitting J.fits (J.content job.now) (counted 0 graph.now.old) old.items }
    ensures { IfOk result (λ places. AreAllFitting J.fits (J.content job.now) graph.now.slots places.items) }
{
    let mut places = with_old(alloc, graph.slots, old)?;
    run_all(graph, job, places.as_mut_slice())?;
    Ok(places)
}
