//! Plans of small problems, worked out by hand.
use crate::checked;
use graph_compiler::{Detail, ListKind, Plan, StepKind, compile, kind_of};
use sqlite_items::Items;
use std::alloc::Global;
use std::test::Fail;
use task_check::Checked;

/// `u` in two patches, computed, and then from itself by one layer of ghost cells.
const TWO_PATCHES: &str =
    "problem 1\nsteps 2\ndump 1\nghost 1\nmaterials 1\nlevel ratio 1\nbox 0 0 0 4 1 1\npatch 0 0 0 2 1 1\npatch 2 0 0 4 1 1\nvar u cell outside 0\ninit\ntask start levels 0 materials 0\ncomputes u = x\ntimestep\ntask shift levels 0 materials 0\nrequires old u cells 1\ncomputes u = x\nkeep u\nend\n";

/// Two levels and two materials. `u` is read before and after it is modified, and the reduction of the step before and of this one are read.
const READERS: &str =
    "problem 1\nsteps 1\ndump 1\nghost 1\nmaterials 2\nlevel ratio 1\nbox 0 0 0 4 1 1\npatch 0 0 0 2 1 1\npatch 2 0 0 4 1 1\nlevel ratio 2\nbox 0 0 0 8 2 2\npatch 0 0 0 4 2 2\npatch 4 0 0 8 2 2\nvar u cell outside 0\nvar v cell outside 0\nreduction r max\ninit\ntask start levels 0 1 materials 0 1\ncomputes u = x\nreduces r cell = x\ntimestep\ntask step levels 0 1 materials 0 1\nrequires old u cells 1\nrequires old r\ncomputes u = x\ntask before levels 1 materials 0\nrequires new coarse u none\ncomputes v = x\ntask modify levels 0 materials 0\nrequires new u none\nrequires new fine u\nmodifies u = x\ntask after levels 0 materials 0 1\nrequires new u cells 1\ncomputes v = x\ntask reduce levels 0 1 materials 0 1\nrequires new u none\nreduces r cell = x\ntask last levels 1 materials 1\nrequires new r\ncomputes v = x\nkeep u\nend\n";

/// Up to the patches: a level of 32 x 32 cells, and 8 materials.
const WIDE_LEVEL: &str =
    "problem 1\nsteps 2\ndump 1\nghost 8\nmaterials 8\nlevel ratio 1\nbox 0 0 0 32 32 1\n";

/// Behind the patches: `u`, computed, and then from itself by 8 layers of ghost cells.
const WIDE_TASKS: &str =
    "var u cell outside 0\ninit\ntask start levels 0 materials 0 1 2 3 4 5 6 7\ncomputes u = x\ntimestep\ntask shift levels 0 materials 0 1 2 3 4 5 6 7\nrequires old u cells 8\ncomputes u = x\nend\n";

fn kind(list: ListKind, next: bool, dump: bool) -> StepKind {
    StepKind { list, next, dump }
}

/// The plan of the timestep list.
fn timestep(alloc: Global, text: &str, next: bool, dump: bool) -> Result<Plan, Fail> {
    let c = checked(alloc, text)?;
    Ok(compile(alloc, &c, kind(ListKind::Timestep, next, dump))?)
}

/// The numbers in a list of lists.
fn numbers(lists: &Items<Items<u32>>, k: usize) -> &[u32] {
    match lists.as_slice().get(k) {
        Some(list) => list.as_slice(),
        None => &[],
    }
}

/// The kind of a step, where the problem has the step.
fn kind_at(c: &Checked, step: u32) -> Option<StepKind> {
    if u64::from(step) <= c.problem().steps.value {
        Some(kind_of(c, step))
    } else {
        None
    }
}

#[test]
fn steps_have_kinds(rt: HostRuntime) -> Result<(), Fail> {
    let c = checked(rt.alloc(), TWO_PATCHES)?;
    assert_eq!(rt; kind_at(&c, 0), Some(kind(ListKind::Init, true, true)));
    assert_eq!(rt; kind_at(&c, 1), Some(kind(ListKind::Timestep, true, true)));
    assert_eq!(rt; kind_at(&c, 2), Some(kind(ListKind::Timestep, false, true)));
    Ok(())
}

#[test]
fn slots_are_kept_for_the_next_step_or_the_dump(rt: HostRuntime) -> Result<(), Fail> {
    for (next, dump, kept) in [
        (false, false, false),
        (false, true, true),
        (true, false, true),
        (true, true, true),
    ] {
        let plan = timestep(rt.alloc(), TWO_PATCHES, next, dump)?;
        assert_eq!(rt;
            plan.graph.kept.as_slice(),
            [false, false, kept, kept].as_slice()
        );
    }
    Ok(())
}

#[test]
fn what_nobody_reads_is_used_by_its_writer(rt: HostRuntime) -> Result<(), Fail> {
    let plan = timestep(rt.alloc(), TWO_PATCHES, false, false)?;
    assert_eq!(rt; plan.graph.uses.as_slice(), [2, 2, 1, 1].as_slice());
    Ok(())
}

fn detail(task: u32, level: u32, material: u32, patch: u32, combine: Option<u32>) -> Detail {
    Detail {
        task,
        level,
        material,
        patch,
        combine,
    }
}

#[test]
fn tasks_go_by_level_material_and_patch(rt: HostRuntime) -> Result<(), Fail> {
    let plan = timestep(rt.alloc(), READERS, true, false)?;
    let tasks = plan.tasks.as_slice();
    assert_eq!(rt; tasks.len(), 27);
    for (k, d) in [
        (1, detail(0, 0, 0, 1, None)),
        (2, detail(0, 0, 1, 0, None)),
        (4, detail(0, 1, 0, 0, None)),
        (8, detail(1, 1, 0, 0, None)),
        (23, detail(4, 1, 1, 1, None)),
        (24, detail(4, 0, 0, 0, Some(0))),
        (25, detail(5, 1, 1, 0, None)),
    ] {
        assert_eq!(rt; tasks.get(k).copied(), Some(d));
    }
    Ok(())
}

#[test]
fn each_reader_has_its_version(rt: HostRuntime) -> Result<(), Fail> {
    let plan = timestep(rt.alloc(), READERS, true, false)?;
    let reads = &plan.graph.reads;
    assert_eq!(rt; plan.graph.old, 9);
    assert_eq!(rt; plan.graph.slots, 36);
    // What stood before, on both patches of the own material and level, and the reduction.
    assert_eq!(rt; numbers(reads, 2), [2, 3, 8].as_slice());
    // The coarser level before it is modified.
    assert_eq!(rt; numbers(reads, 8), [9].as_slice());
    // The modify itself, with the finer level.
    assert_eq!(rt; numbers(reads, 10), [9, 13].as_slice());
    // Behind the modify, of its material and of the other one.
    assert_eq!(rt; numbers(reads, 12), [19, 20].as_slice());
    assert_eq!(rt; numbers(reads, 14), [11, 12].as_slice());
    Ok(())
}

#[test]
fn a_number_is_read_behind_all_its_parts(rt: HostRuntime) -> Result<(), Fail> {
    let graph = timestep(rt.alloc(), READERS, true, false)?.graph;
    let parts = [25, 26, 27, 28, 29, 30, 31, 32];
    assert_eq!(rt; numbers(&graph.reads, 24), parts.as_slice());
    assert_eq!(rt; numbers(&graph.successors, 24), [25, 26].as_slice());
    assert_eq!(rt; numbers(&graph.reads, 25), [33].as_slice());
    Ok(())
}

#[test]
fn the_last_version_is_kept(rt: HostRuntime) -> Result<(), Fail> {
    let graph = timestep(rt.alloc(), READERS, true, false)?.graph;
    // The first version on material 0 and level 0, the last one there, the reduction's number, and a variable that no step reads.
    for (k, kept) in [(9, false), (19, true), (33, true), (17, false)] {
        assert_eq!(rt; graph.kept.as_slice().get(k).copied(), Some(kept));
    }
    Ok(())
}

#[test]
fn the_dump_keeps_its_names_alone(rt: HostRuntime) -> Result<(), Fail> {
    let graph = timestep(rt.alloc(), READERS, false, true)?.graph;
    for (k, kept) in [(19, true), (33, false)] {
        assert_eq!(rt; graph.kept.as_slice().get(k).copied(), Some(kept));
    }
    Ok(())
}

/// The line of a patch of one cell.
fn cell_patch(alloc: Global, k: u64) -> Result<String, Fail> {
    let (x, y) = (k % 32, k / 32);
    Ok(format!(in alloc; "patch {} {} 0 {} {} 1\n", x, y, x + 1, y + 1)?)
}

/// A level of 1,024 patches.
fn wide_level(alloc: Global) -> Result<String, Fail> {
    let mut text = WIDE_LEVEL.to_string(alloc)?;
    for k in 0..1024 {
        text.push_str(cell_patch(alloc, k)?.as_str())?;
    }
    Ok(text)
}

fn wide(alloc: Global) -> Result<String, Fail> {
    let mut text = wide_level(alloc)?;
    text.push_str(WIDE_TASKS)?;
    Ok(text)
}

/// How many numbers the lists have together.
fn total(lists: &Items<Items<u32>>) -> usize {
    let mut total = 0usize;
    for list in lists.as_slice() {
        total = total.wrapping_add(list.len());
    }
    total
}

#[test]
fn wide_windows_read_many_slots(rt: HostRuntime) -> Result<(), Fail> {
    let text = wide(rt.alloc())?;
    let plan = timestep(rt.alloc(), text.as_str(), true, true)?;
    assert_eq!(rt; total(&plan.graph.reads), 1_782_272);
    assert_eq!(rt; plan.graph.slots, 16_384);
    Ok(())
}
