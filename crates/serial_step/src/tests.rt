//! Two tasks, each of which adds 1 to what it reads.
ghost use Rattle.std.specs.Prelude.{◌≡◌, pos, ◌+◌, ◌<◌, [], ◌∷◌, IfOk, length};

use crate::run_serially;
use graph_types::{Graph, NoMemory, Wants, valid};
use sqlite_items::Items;
use std::alloc::Global;
use std::test::Fail;
use unified_scheduler::Job;

/// Task 0 reads the old slot, which is 5, and writes slot 1. Task 1 reads that and writes slot 2.
#[derive(Drop)]
struct Adding {
    alloc: Global,
    graph: Graph,
    ghost tasks: { graph.tasks ≡ 2 },
    ghost old: { graph.old ≡ 1 },
    ghost reads: { graph.reads ≡ (0 ∷ []) ∷ (1 ∷ []) ∷ [] },
    ghost writes: { graph.writes ≡ (1 ∷ []) ∷ (2 ∷ []) ∷ [] },
}

impl Wants for Adding {
    type Value = i64;

    ghost graph = { λ job. job.graph };

    ghost content = { λ job. (pos 5 ∷ []) ∷ (pos 6 ∷ []) ∷ (pos 7 ∷ []) ∷ [] };

    ghost fits = { λ list value. list ≡ value ∷ [] };
}

impl Job for Adding {
    type Work = Vec<i64>;

    ghost filled = { λ job task gathered work.
        (task < 2) × (length work.items ≡ 1) × (gathered ≡ 1 → work.items ≡ pos (6 + task) ∷ []) };

    fn begin(&self, _task: u32) -> Result<Vec<i64>, NoMemory> {
        Ok([0].to_vec(self.alloc)?)
    }

    fn gather(&self, _task: u32, _k: usize, value: &i64, work: &mut Vec<i64>) {
        work[0] = *value + 1;
    }

    fn run(&self, _task: u32, work: Vec<i64>) -> Vec<i64> {
        work
    }
}

/// A list of slots for each of two tasks.
fn lists(alloc: Global, first: &[u32], second: &[u32]) -> Result<Items<Items<u32>>, NoMemory>
    ensures { IfOk result (λ lists. lists ≡ first.now ∷ second.now ∷ []) }
{
    let mut lists = Items::new(alloc);
    lists.push(Items::from_slice(alloc, first)?)?;
    lists.push(Items::from_slice(alloc, second)?)?;
    Ok(lists)
}

fn adding_job(alloc: Global) -> Result<Adding, NoMemory> {
    let graph = Graph {
        tasks: 2,
        old: 1,
        slots: 3,
        reads: lists(alloc, &[0], &[1])?,
        writes: lists(alloc, &[1], &[2])?,
        successors: lists(alloc, &[1], &[])?,
        predecessors: Items::from_slice(alloc, &[0, 1])?,
        uses: Items::from_slice(alloc, &[1, 2, 2])?,
        kept: Items::from_slice(alloc, &[false, false, true])?,
    };
    Ok(Adding { alloc, graph })
}

#[test]
fn each_task_adds_one(rt: HostRuntime) -> Result<(), Fail> {
    let job = adding_job(rt.alloc())?;
    assert!(rt; valid(rt.alloc(), &job.graph)?);
    let old = [5].to_vec(rt.alloc())?;
    let places = run_serially(rt.alloc(), &job.graph, &job, old)?;
    assert_eq!(rt; places.as_slice(), [Some(5), Some(6), Some(7)].as_slice());
    Ok(())
}
