//! Graphs drawn by hand.
use graph_types::Graph;
use sqlite_items::Items;
use std::alloc::Global;
use std::test::Fail;

/// The numbers of a graph.
#[derive(Clone, Copy)]
pub(crate) struct Numbers {
    pub(crate) tasks: u32,
    pub(crate) old: u32,
    pub(crate) slots: u32,
    pub(crate) reads: &'static [&'static [u32]],
    pub(crate) writes: &'static [&'static [u32]],
    pub(crate) successors: &'static [&'static [u32]],
    pub(crate) predecessors: &'static [u32],
    pub(crate) uses: &'static [u32],
    pub(crate) kept: &'static [bool],
}

pub(crate) const NO_TASKS: Numbers = Numbers {
    tasks: 0,
    old: 0,
    slots: 0,
    reads: &[],
    writes: &[],
    successors: &[],
    predecessors: &[],
    uses: &[],
    kept: &[],
};

/// Task 0 writes slot 0, task 1 reads it and writes slot 1, which is kept.
pub(crate) const TWO_TASKS: Numbers = Numbers {
    tasks: 2,
    old: 0,
    slots: 2,
    reads: &[&[], &[0]],
    writes: &[&[0], &[1]],
    successors: &[&[1], &[]],
    predecessors: &[0, 1],
    uses: &[2, 2],
    kept: &[false, true],
};

/// Task 0 reads the old slot and writes 1, tasks 1 and 2 read that and write 2 and 3, and task 3 reads these and writes 4, which is kept.
pub(crate) const DIAMOND: Numbers = Numbers {
    tasks: 4,
    old: 1,
    slots: 5,
    reads: &[&[0], &[1], &[1], &[2, 3]],
    writes: &[&[1], &[2], &[3], &[4]],
    successors: &[&[1, 2], &[3], &[3], &[]],
    predecessors: &[0, 1, 1, 2],
    uses: &[1, 3, 2, 2, 2],
    kept: &[false, false, false, false, true],
};

fn lists(alloc: Global, all: &[&[u32]]) -> Result<Items<Items<u32>>, Fail> {
    let mut lists = Items::new(alloc);
    for numbers in all {
        lists.push(Items::from_slice(alloc, numbers)?)?;
    }
    Ok(lists)
}

pub(crate) fn graph(alloc: Global, n: Numbers) -> Result<Graph, Fail> {
    Ok(Graph {
        tasks: n.tasks,
        old: n.old,
        slots: n.slots,
        reads: lists(alloc, n.reads)?,
        writes: lists(alloc, n.writes)?,
        successors: lists(alloc, n.successors)?,
        predecessors: Items::from_slice(alloc, n.predecessors)?,
        uses: Items::from_slice(alloc, n.uses)?,
        kept: Items::from_slice(alloc, n.kept)?,
    })
}
