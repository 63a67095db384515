//! Tasks drawn by hand, of a variable 0, a variable 1 and a reduction 2.
use problem_types::{
    Centring, Expr, Ghost, GhostKind, NoMemory, Require, Store, Task, What, Write, WriteKind,
};
use sqlite_items::Items;
use std::alloc::Global;
use std::test::Fail;
use task_rules::{
    computes, has_computes, has_modifies, is_computed_beside, is_computed_only_later, is_lacking,
    is_left_out, is_never_written, is_read_while_modified, reduces, runs_on, wanted_name,
};

const NONE: Ghost = Ghost {
    kind: GhostKind::None,
    n: 0,
};

/// A task on these levels and materials that writes nothing.
fn idle(alloc: Global, levels: &[u64], materials: &[u64]) -> Result<Task, NoMemory> {
    Ok(Task {
        line: 20,
        name: 9,
        levels: Items::from_slice(alloc, levels)?,
        materials: Items::from_slice(alloc, materials)?,
        requirements: Items::new(alloc),
        writes: Items::new(alloc),
    })
}

fn write(kind: WriteKind, name: u32) -> Write {
    Write {
        line: 21,
        kind,
        name,
        expr: Expr::X,
    }
}

/// A task on these levels and materials that computes the variable 0.
fn computing(alloc: Global, levels: &[u64], materials: &[u64]) -> Result<Task, NoMemory> {
    let mut t = idle(alloc, levels, materials)?;
    t.writes.push(write(WriteKind::Computes, 0))?;
    Ok(t)
}

/// A task on these levels that requires this of the store.
fn reading(alloc: Global, levels: &[u64], store: Store, what: What) -> Result<Task, NoMemory> {
    let mut t = idle(alloc, levels, &[0])?;
    t.requirements.push(Require {
        line: 21,
        store,
        what,
    })?;
    Ok(t)
}

#[test]
fn lines_are_told_apart(rt: HostRuntime) -> Result<(), Fail> {
    let alloc = rt.alloc();
    let mut t = computing(alloc, &[0], &[0])?;
    t.writes.push(write(WriteKind::Modifies, 1))?;
    t.writes.push(write(WriteKind::Reduces(Centring::Cell), 2))?;
    assert!(rt; has_computes(t.writes.as_slice(), 0) && !has_computes(t.writes.as_slice(), 1));
    assert!(rt; has_modifies(t.writes.as_slice(), 1) && !has_modifies(t.writes.as_slice(), 0));
    let tasks = [t];
    assert!(rt; reduces(&tasks, 2) && !reduces(&tasks, 0));
    assert!(rt; wanted_name(What::Fine { var: 1 }) == 1);
    assert!(rt; wanted_name(What::Number { name: 2 }) == 2);
    Ok(())
}

#[test]
fn each_level_and_material_that_is_wanted_counts(rt: HostRuntime) -> Result<(), Fail> {
    let alloc = rt.alloc();
    let tasks = [
        computing(alloc, &[0, 1], &[0])?,
        computing(alloc, &[0], &[1])?,
    ];
    let same = What::Same {
        var: 0,
        layers: NONE,
    };
    let coarse = What::Coarse {
        var: 0,
        layers: NONE,
    };
    let fine = What::Fine { var: 0 };
    // Material 1 of level 1 is not computed.
    assert!(rt; !is_lacking(&tasks, &idle(alloc, &[0, 1], &[0])?, same));
    assert!(rt; is_lacking(&tasks, &idle(alloc, &[0, 1], &[0, 1])?, same));
    assert!(rt; !is_lacking(&tasks, &idle(alloc, &[1], &[0, 1])?, coarse));
    assert!(rt; is_lacking(&tasks, &idle(alloc, &[1, 2], &[0, 1])?, coarse));
    assert!(rt; !is_lacking(&tasks, &idle(alloc, &[0], &[0])?, fine));
    assert!(rt; is_lacking(&tasks, &idle(alloc, &[0], &[0, 1])?, fine));
    assert!(rt; is_lacking(&tasks, &idle(alloc, &[u64::MAX], &[0])?, fine));
    assert!(rt; is_lacking(&tasks, &idle(alloc, &[0], &[0])?, What::Number { name: 2 }));
    Ok(())
}

#[test]
fn what_tasks_compute_is_found(rt: HostRuntime) -> Result<(), Fail> {
    let alloc = rt.alloc();
    let earlier = [computing(alloc, &[0], &[0, 1])?];
    let later = [computing(alloc, &[0, 2], &[1])?];
    let both = idle(alloc, &[0, 2], &[0, 1])?;
    let coarsest = idle(alloc, &[0], &[0, 1])?;
    let between = idle(alloc, &[1], &[0, 1])?;
    assert!(rt; is_left_out(&earlier, &both, 0) && !is_left_out(&earlier, &coarsest, 0));
    assert!(rt;
        is_computed_beside(&later, &coarsest, 0) && !is_computed_beside(&later, &between, 0)
    );
    // On level 2 and material 1.
    assert!(rt; is_computed_only_later(&earlier, &later, &both, 0));
    assert!(rt; !is_computed_only_later(&earlier, &later, &coarsest, 0));
    assert!(rt; !is_never_written(&later, 0) && is_never_written(&later, 1));
    assert!(rt;
        computes(&later, 0, 1, 2) && !computes(&later, 0, 0, 2) && !computes(&later, 1, 1, 2)
    );
    assert!(rt; runs_on(&between, 0, 1) && !runs_on(&between, 0, 0) && !runs_on(&between, 2, 1));
    Ok(())
}

/// Whether a task that requires this reads what it may be modifying of the variable 0.
fn is_torn(alloc: Global, levels: &[u64], store: Store, what: What) -> Result<bool, NoMemory> {
    Ok(is_read_while_modified(&reading(alloc, levels, store, what)?, 0))
}

#[test]
fn a_task_may_not_read_beyond_what_it_modifies(rt: HostRuntime) -> Result<(), Fail> {
    let alloc = rt.alloc();
    let layers = Ghost {
        kind: GhostKind::Cells,
        n: 1,
    };
    let same = What::Same { var: 0, layers };
    let own = What::Same {
        var: 0,
        layers: NONE,
    };
    let coarse = What::Coarse { var: 0, layers };
    assert!(rt; is_torn(alloc, &[0], Store::New, same)?);
    assert!(rt; !is_torn(alloc, &[0], Store::Old, same)?);
    assert!(rt; !is_torn(alloc, &[0, 1], Store::New, own)?);
    assert!(rt; is_torn(alloc, &[0, 2, 3], Store::New, coarse)?);
    assert!(rt; !is_torn(alloc, &[1, 3], Store::New, coarse)?);
    assert!(rt; is_torn(alloc, &[0, 1], Store::New, What::Fine { var: 0 })?);
    assert!(rt; !is_torn(alloc, &[0, 1], Store::New, What::Fine { var: 1 })?);
    Ok(())
}
