//! A problem drawn by hand: a variable 0 at nodes and one of the same name at cells, a reduction 1.
use crate::{centring_of, field_write, fold_of, is_dumped, outside_of, reduction_write, task_list};
use problem_types::{
    Centring, Expr, Fold, NoMemory, Num, Problem, Reduction, Task, Var, Write, WriteKind,
};
use sqlite_items::Items;
use std::alloc::Global;
use std::test::Fail;

fn num(value: u64) -> Num {
    Num { line: 1, value }
}

fn variable(centring: Centring, outside: i64) -> Var {
    Var {
        line: 2,
        name: 0,
        centring,
        outside,
    }
}

fn write(kind: WriteKind, name: u32, line: u32) -> Write {
    Write {
        line,
        kind,
        name,
        expr: Expr::X,
    }
}

/// A task that computes 0, reduces to 0 and modifies 0, on levels 0 and 2 and on material 1.
fn task(alloc: Global) -> Result<Task, NoMemory> {
    let mut writes = Items::new(alloc);
    writes.push(write(WriteKind::Reduces(Centring::Cell), 0, 11))?;
    writes.push(write(WriteKind::Modifies, 0, 12))?;
    writes.push(write(WriteKind::Computes, 0, 13))?;
    Ok(Task {
        line: 10,
        name: 5,
        levels: Items::from_slice(alloc, &[0, 2])?,
        materials: Items::from_slice(alloc, &[1])?,
        requirements: Items::new(alloc),
        writes,
    })
}

/// A problem of 5 steps, dumped at every second one, with one task in its init list.
fn problem(alloc: Global) -> Result<Problem, NoMemory> {
    let mut init = Items::new(alloc);
    init.push(task(alloc)?)?;
    let mut vars = Items::new(alloc);
    vars.push(variable(Centring::Node, -7))?;
    vars.push(variable(Centring::Cell, 8))?;
    let mut reductions = Items::new(alloc);
    reductions.push(Reduction {
        line: 4,
        name: 1,
        fold: Fold::Max,
    })?;
    Ok(Problem {
        names: Items::new(alloc),
        version: num(1),
        steps: num(5),
        dump: num(2),
        ghost_limit: num(0),
        materials: num(2),
        levels: Items::new(alloc),
        vars,
        reductions,
        init_line: 9,
        init,
        timestep_line: 14,
        timestep: Items::new(alloc),
        keeps: Items::new(alloc),
        end_line: 15,
    })
}

#[test]
fn the_first_declaration_counts(rt: HostRuntime) -> Result<(), Fail> {
    let p = problem(rt.alloc())?;
    assert_eq!(rt; centring_of(&p, 0), Centring::Node);
    assert_eq!(rt; outside_of(&p, 0), -7);
    assert_eq!(rt; fold_of(&p, 1), Fold::Max);
    assert_eq!(rt; centring_of(&p, 1), Centring::Cell);
    assert_eq!(rt; outside_of(&p, 1), 0);
    assert_eq!(rt; fold_of(&p, 0), Fold::Sum);
    Ok(())
}

#[test]
fn lists_by_step(rt: HostRuntime) -> Result<(), Fail> {
    let p = problem(rt.alloc())?;
    assert_eq!(rt; task_list(&p, 0).len(), 1);
    assert_eq!(rt; task_list(&p, 1).len(), 0);
    Ok(())
}

#[test]
fn every_second_step_and_the_last_are_dumped(rt: HostRuntime) -> Result<(), Fail> {
    let p = problem(rt.alloc())?;
    if p.dump.value >= 1 {
        for (step, want) in [(0, true), (1, false), (4, true), (5, true)] {
            assert_eq!(rt; is_dumped(&p, step), want);
        }
    }
    Ok(())
}

#[test]
fn lines_are_told_apart(rt: HostRuntime) -> Result<(), Fail> {
    let t = task(rt.alloc())?;
    assert_eq!(rt; field_write(&t, 0).map(|w| w.line), Some(12));
    assert_eq!(rt; reduction_write(&t, 0).map(|w| w.line), Some(11));
    assert!(rt; field_write(&t, 1).is_none());
    Ok(())
}
