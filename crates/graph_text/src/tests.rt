//! Listings written out by hand.
use crate::PlanLines;
use crate::whole::listing_of;
use graph_compiler::{Detail, ListKind, Plan, Slot, SlotKind};
use graph_types::Graph;
use problem_types::{Centring, Expr, Name, Num, Problem, Task, Write, WriteKind};
use sqlite_items::Items;
use std::alloc::Global;
use std::test::Fail;

/// A variable `u`, a reduction `most`, and the names of tasks.
fn names(alloc: Global) -> Result<Items<Name>, Fail> {
    let mut names = Items::new(alloc);
    for word in [b"u".as_slice(), b"most", b"start", b"shift"] {
        names.push(Name::new(alloc, word)?)?;
    }
    Ok(names)
}

fn reducing(alloc: Global) -> Result<Items<Write>, Fail> {
    let mut writes = Items::new(alloc);
    writes.push(Write {
        line: 0,
        kind: WriteKind::Reduces(Centring::Cell),
        name: 1,
        expr: Expr::X,
    })?;
    Ok(writes)
}

/// A list of one task of this name.
fn one_task(alloc: Global, name: u32) -> Result<Items<Task>, Fail> {
    let mut tasks = Items::new(alloc);
    tasks.push(Task {
        line: 0,
        name,
        levels: Items::new(alloc),
        materials: Items::new(alloc),
        requirements: Items::new(alloc),
        writes: reducing(alloc)?,
    })?;
    Ok(tasks)
}

fn problem(alloc: Global) -> Result<Problem, Fail> {
    let zero = Num { line: 0, value: 0 };
    Ok(Problem {
        names: names(alloc)?,
        version: zero,
        steps: zero,
        dump: zero,
        ghost_limit: zero,
        materials: zero,
        levels: Items::new(alloc),
        vars: Items::new(alloc),
        reductions: Items::new(alloc),
        init_line: 0,
        init: one_task(alloc, 2)?,
        timestep_line: 0,
        timestep: one_task(alloc, 3)?,
        keeps: Items::new(alloc),
        end_line: 0,
    })
}

fn lists(alloc: Global, all: &[&[u32]]) -> Result<Items<Items<u32>>, Fail> {
    let mut lists = Items::new(alloc);
    for numbers in all {
        lists.push(Items::from_slice(alloc, numbers)?)?;
    }
    Ok(lists)
}

/// The numbers of a plan. Listings ask for no more of a graph.
#[derive(Clone, Copy)]
struct Numbers {
    tasks: u32,
    slots: u32,
    reads: &'static [&'static [u32]],
    writes: &'static [&'static [u32]],
    successors: &'static [&'static [u32]],
    uses: &'static [u32],
    kept: &'static [bool],
}

fn graph(alloc: Global, n: Numbers) -> Result<Graph, Fail> {
    Ok(Graph {
        tasks: n.tasks,
        old: 0,
        slots: n.slots,
        reads: lists(alloc, n.reads)?,
        writes: lists(alloc, n.writes)?,
        successors: lists(alloc, n.successors)?,
        predecessors: Items::new(alloc),
        uses: Items::from_slice(alloc, n.uses)?,
        kept: Items::from_slice(alloc, n.kept)?,
    })
}

fn plan(alloc: Global, n: Numbers, tasks: &[Detail], slots: &[Slot]) -> Result<Plan, Fail> {
    Ok(Plan {
        graph: graph(alloc, n)?,
        tasks: Items::from_slice(alloc, tasks)?,
        slots: Items::from_slice(alloc, slots)?,
    })
}

const fn detail(patch: u32, combine: Option<u32>) -> Detail {
    Detail {
        task: 0,
        level: 0,
        material: 0,
        patch,
        combine,
    }
}

const fn slot(kind: SlotKind, name: u32, patch: u32, version: u32) -> Slot {
    Slot {
        kind,
        name,
        material: 0,
        level: 0,
        patch,
        version,
    }
}

fn init_plan(alloc: Global) -> Result<Plan, Fail> {
    let n = Numbers {
        tasks: 2,
        slots: 2,
        reads: &[&[], &[]],
        writes: &[&[0], &[1]],
        successors: &[&[], &[]],
        uses: &[2, 2],
        kept: &[true, true],
    };
    let slots = [slot(SlotKind::New, 0, 0, 0), slot(SlotKind::New, 0, 1, 0)];
    plan(alloc, n, &[detail(0, None), detail(1, None)], &slots)
}

fn timestep_plan(alloc: Global) -> Result<Plan, Fail> {
    let n = Numbers {
        tasks: 2,
        slots: 4,
        reads: &[&[0, 1], &[0, 1]],
        writes: &[&[2], &[3]],
        successors: &[&[], &[]],
        uses: &[2, 2, 2, 2],
        kept: &[false, false, true, true],
    };
    let slots = [
        slot(SlotKind::Old, 0, 0, 0),
        slot(SlotKind::Old, 0, 1, 0),
        slot(SlotKind::New, 0, 0, 0),
        slot(SlotKind::New, 0, 1, 0),
    ];
    plan(alloc, n, &[detail(0, None), detail(1, None)], &slots)
}

const LISTING: [&str; 14] = [
    "graph 1\n",
    "plan init tasks 2 slots 2 reads 0\n",
    "slot 0 new u material 0 level 0 patch 0 version 0 uses 2 kept 1\n",
    "slot 1 new u material 0 level 0 patch 1 version 0 uses 2 kept 1\n",
    "task 0 start level 0 material 0 patch 0 reads writes 0 after\n",
    "task 1 start level 0 material 0 patch 1 reads writes 1 after\n",
    "plan timestep tasks 2 slots 4 reads 4\n",
    "slot 0 old u material 0 level 0 patch 0 version 0 uses 2 kept 0\n",
    "slot 1 old u material 0 level 0 patch 1 version 0 uses 2 kept 0\n",
    "slot 2 new u material 0 level 0 patch 0 version 0 uses 2 kept 1\n",
    "slot 3 new u material 0 level 0 patch 1 version 0 uses 2 kept 1\n",
    "task 0 shift level 0 material 0 patch 0 reads 0 1 writes 2 after\n",
    "task 1 shift level 0 material 0 patch 1 reads 0 1 writes 3 after\n",
    "end\n",
];

#[test]
fn two_patches_are_listed(rt: HostRuntime) -> Result<(), Fail> {
    let alloc = rt.alloc();
    let p = problem(alloc)?;
    let lines = listing_of(alloc, &p, &init_plan(alloc)?, &timestep_plan(alloc)?)?;
    assert_eq!(rt; lines.len(), LISTING.len());
    for (line, want) in lines.iter().zip(LISTING) {
        assert_eq!(rt; line.as_slice(), want.as_bytes());
    }
    Ok(())
}

/// Two tasks that reduce, one that combines their parts, and a slot of the step before. One successor is named twice, and one is no
/// task.
fn reducing_plan(alloc: Global) -> Result<Plan, Fail> {
    let n = Numbers {
        tasks: 3,
        slots: 4,
        reads: &[&[0], &[0], &[1, 2]],
        writes: &[&[1], &[2], &[3]],
        successors: &[&[2, 2], &[2, 70_000], &[]],
        uses: &[2, 2, 2, 2],
        kept: &[false, false, false, true],
    };
    let slots = [
        slot(SlotKind::OldNumber, 1, 0, 0),
        slot(SlotKind::Part, 1, 0, 0),
        slot(SlotKind::Part, 1, 1, 0),
        slot(SlotKind::Number, 1, 0, 0),
    ];
    let tasks = [detail(0, None), detail(1, None), detail(0, Some(0))];
    plan(alloc, n, &tasks, &slots)
}

const REDUCING: [&str; 8] = [
    "plan timestep tasks 3 slots 4 reads 4\n",
    "slot 0 oldnumber most uses 2 kept 0\n",
    "slot 1 part most material 0 level 0 patch 0 version 0 uses 2 kept 0\n",
    "slot 2 part most material 0 level 0 patch 1 version 0 uses 2 kept 0\n",
    "slot 3 number most uses 2 kept 1\n",
    "task 0 shift level 0 material 0 patch 0 reads 0 writes 1 after\n",
    "task 1 shift level 0 material 0 patch 1 reads 0 writes 2 after\n",
    "task 2 combine most reads 1 2 writes 3 after 0 1\n",
];

#[test]
fn lines_are_put_in_one_buffer(rt: HostRuntime) -> Result<(), Fail> {
    let alloc = rt.alloc();
    let p = problem(alloc)?;
    let reducing = reducing_plan(alloc)?;
    let lines = PlanLines::new(alloc, &p, ListKind::Timestep, &reducing)?;
    let mut line = Vec::new(alloc);
    assert_eq!(rt; lines.len(), REDUCING.len());
    for (number, want) in REDUCING.iter().enumerate() {
        lines.put(&mut line, number)?;
        assert_eq!(rt; line.as_slice(), want.as_bytes());
    }
    Ok(())
}
