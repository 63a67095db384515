//! Which of several faults is answered: two tasks, each with a fault, in every order of what tasks can have for faults.
use crate::checking::{at, fault_of, one, problem, shift, task, variable};
use problem_types::{
    Expr, Ghost, GhostKind, How, Keep, Name, NoMemory, Problem, Read, Require, Store, Task, What,
    Write, WriteKind,
};
use sqlite_items::Items;
use std::alloc::Global;
use std::test::Fail;
use task_check::FaultKind;

const U: u32 = 0;

/// The name of a task.
const START: u32 = 1;

const W: u32 = 3;

/// What a task has behind its line and a requirement of the old `u` without ghost cells: a requirement, and then a line that writes.
#[derive(Clone, Copy)]
struct Lines {
    store: Store,
    what: What,
    kind: WriteKind,
    name: u32,
    /// The variable whose old number one cell further along x is written; 0 is written where there is none.
    read: Option<u32>,
}

fn same(var: u32, n: u64) -> What {
    let kind = if n == 0 {
        GhostKind::None
    } else {
        GhostKind::Cells
    };
    What::Same {
        var,
        layers: Ghost { kind, n },
    }
}

fn coarse(var: u32, n: u64) -> What {
    let kind = if n == 0 {
        GhostKind::None
    } else {
        GhostKind::Cells
    };
    What::Coarse {
        var,
        layers: Ghost { kind, n },
    }
}

/// Lines that require this, and set `u` to 0.
fn requiring(store: Store, what: What) -> Lines {
    Lines {
        store,
        what,
        kind: WriteKind::Modifies,
        name: U,
        read: None,
    }
}

/// Lines that require the old `w` where they run, and write this.
fn writing(kind: WriteKind, name: u32, read: Option<u32>) -> Lines {
    Lines {
        store: Store::Old,
        what: same(W, 0),
        kind,
        name,
        read,
    }
}

fn number(read: Option<u32>) -> Expr {
    match read {
        Some(name) => Expr::Read(Read {
            store: Store::Old,
            how: How::Same,
            name,
            offset: [1, 0, 0],
        }),
        None => Expr::Literal(0),
    }
}

/// A task on four lines from here on.
fn drawn(alloc: Global, line: u32, name: u32, lines: Lines) -> Result<Task, NoMemory> {
    let before = Require {
        line: line.saturating_add(1),
        store: Store::Old,
        what: same(U, 0),
    };
    let mut drawn = task(
        alloc,
        line,
        name,
        line.saturating_add(3),
        number(lines.read),
    )?;
    drawn.requirements.push(before)?;
    drawn.requirements.push(Require {
        line: line.saturating_add(2),
        store: lines.store,
        what: lines.what,
    })?;
    drawn.writes = one(
        alloc,
        Write {
            line: line.saturating_add(3),
            kind: lines.kind,
            name: lines.name,
            expr: number(lines.read),
        },
    )?;
    Ok(drawn)
}

/// A task that computes `w`.
fn last(alloc: Global, line: u32, name: u32) -> Result<Task, NoMemory> {
    let mut last = task(alloc, line, name, line.saturating_add(1), Expr::Literal(0))?;
    last.writes = one(
        alloc,
        Write {
            line: line.saturating_add(1),
            kind: WriteKind::Computes,
            name: W,
            expr: Expr::Literal(0),
        },
    )?;
    Ok(last)
}

/// The steps: `u` is computed, two tasks on the lines from 30 and from 34 on have these lines, and `w` is computed.
fn steps(alloc: Global, first: Lines, second: Lines) -> Result<Items<Task>, NoMemory> {
    let mut tasks = one(alloc, shift(alloc, -1)?)?;
    tasks.push(drawn(alloc, 30, 4, first)?)?;
    tasks.push(drawn(alloc, 34, 5, second)?)?;
    tasks.push(last(alloc, 38, 6)?)?;
    Ok(tasks)
}

/// The problem with these tasks between those that compute `u` and `w`.
fn with_tasks(alloc: Global, first: Lines, second: Lines) -> Result<Problem, NoMemory> {
    let mut problem = problem(alloc)?;
    for letter in [b"w", b"a", b"b", b"c"] {
        problem.names.push(Name::new(alloc, letter)?)?;
    }
    problem.vars.push(variable(10, W))?;
    problem.init_line = 11;
    problem.init = one(alloc, task(alloc, 12, START, 13, Expr::Literal(9))?)?;
    problem.init.push(last(alloc, 14, 6)?)?;
    problem.timestep = steps(alloc, first, second)?;
    problem.keeps = one(alloc, Keep { line: 40, name: U })?;
    problem.end_line = 41;
    Ok(problem)
}

/// For each fault that lines of a task can have, lines that have it, and how far behind the task's line it stands.
fn faults() -> [(FaultKind, Lines, u32); 8] {
    let (modifies, computes) = (WriteKind::Modifies, WriteKind::Computes);
    [
        (FaultKind::Unknown, requiring(Store::Old, same(START, 0)), 2),
        (FaultKind::Twice, requiring(Store::Old, same(U, 0)), 2),
        (
            FaultKind::GhostTooWide,
            requiring(Store::Old, same(W, 2)),
            2,
        ),
        (FaultKind::ReadBeyondGhost, writing(modifies, U, Some(W)), 3),
        (
            FaultKind::MissingLevel,
            requiring(Store::Old, coarse(W, 0)),
            2,
        ),
        (
            FaultKind::MissingCompute,
            requiring(Store::New, same(W, 0)),
            2,
        ),
        (FaultKind::DoubleCompute, writing(computes, U, None), 3),
        (FaultKind::UnorderedModify, writing(modifies, W, None), 3),
    ]
}

#[test]
fn two_tasks_without_faults(rt: HostRuntime) -> Result<(), Fail> {
    let calm = writing(WriteKind::Modifies, U, None);
    let problem = with_tasks(rt.alloc(), calm, calm)?;
    assert_eq!(rt; fault_of(problem)?, None);
    Ok(())
}

#[test]
fn the_fault_of_the_first_task_is_answered(rt: HostRuntime) -> Result<(), Fail> {
    for (kind, first, behind) in faults() {
        for (_, second, _) in faults() {
            let problem = with_tasks(rt.alloc(), first, second)?;
            assert_eq!(rt; fault_of(problem)?, at(behind.saturating_add(30), kind));
        }
    }
    Ok(())
}

#[test]
fn of_two_faults_on_a_line_that_writes(rt: HostRuntime) -> Result<(), Fail> {
    let calm = writing(WriteKind::Modifies, U, None);
    let beyond = FaultKind::ReadBeyondGhost;
    for (kind, write, name, read) in [
        (FaultKind::Unknown, WriteKind::Computes, U, START),
        (beyond, WriteKind::Computes, U, W),
        (beyond, WriteKind::Modifies, W, W),
    ] {
        let problem = with_tasks(rt.alloc(), calm, writing(write, name, Some(read)))?;
        assert_eq!(rt; fault_of(problem)?, at(37, kind));
    }
    Ok(())
}
