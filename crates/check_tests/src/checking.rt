//! A small problem drawn by hand, and the same with a fault.
use problem_types::{
    BoxLine, Centring, Expr, Ghost, GhostKind, How, Keep, Level, Name, NoMemory, Num, Problem,
    Read, Require, Store, Task, Var, What, Write, WriteKind, in_form,
};
use sqlite_items::Items;
use std::alloc::Global;
use std::test::Fail;
use task_check::{Fault, FaultKind, Refusal, Which, check};

pub(crate) fn one<T: Drop>(alloc: Global, item: T) -> Result<Items<T>, NoMemory> {
    let mut items = Items::new(alloc);
    items.push(item)?;
    Ok(items)
}

fn names(alloc: Global) -> Result<Items<Name>, NoMemory> {
    let mut names = one(alloc, Name::new(alloc, b"u")?)?;
    names.push(Name::new(alloc, b"start")?)?;
    names.push(Name::new(alloc, b"shift")?)?;
    Ok(names)
}

fn cells(line: u32, high: [u64; 3]) -> BoxLine {
    BoxLine {
        line,
        lo: [0, 0, 0],
        hi: high,
    }
}

/// A level of 4 x 4 x 4 cells and one patch up to here.
fn level(alloc: Global, high: [u64; 3]) -> Result<Level, NoMemory> {
    Ok(Level {
        line: 6,
        ratio: 1,
        boxes: one(alloc, cells(7, [4, 4, 4]))?,
        patches: one(alloc, cells(8, high))?,
    })
}

pub(crate) fn variable(line: u32, name: u32) -> Var {
    Var {
        line,
        name,
        centring: Centring::Cell,
        outside: 0,
    }
}

/// A task that computes `u`, on the line `write`.
pub(crate) fn task(
    alloc: Global,
    line: u32,
    name: u32,
    write: u32,
    expr: Expr,
) -> Result<Task, NoMemory> {
    let write = Write {
        line: write,
        kind: WriteKind::Computes,
        name: 0,
        expr,
    };
    Ok(Task {
        line,
        name,
        levels: one(alloc, 0)?,
        materials: one(alloc, 0)?,
        requirements: Items::new(alloc),
        writes: one(alloc, write)?,
    })
}

/// A task that takes `u` over from this offset along x, with one layer of ghost cells.
pub(crate) fn shift(alloc: Global, offset: i64) -> Result<Task, NoMemory> {
    let read = Read {
        store: Store::Old,
        how: How::Same,
        name: 0,
        offset: [offset, 0, 0],
    };
    let layers = Ghost {
        kind: GhostKind::Cells,
        n: 1,
    };
    let mut shift = task(alloc, 24, 2, 26, Expr::Read(read))?;
    shift.requirements.push(Require {
        line: 25,
        store: Store::Old,
        what: What::Same { var: 0, layers },
    })?;
    Ok(shift)
}

/// A problem without faults: `u` on cells, which moves by a cell a step.
pub(crate) fn problem(alloc: Global) -> Result<Problem, NoMemory> {
    let num = |line: u32, value: u64| Num { line, value };
    Ok(Problem {
        names: names(alloc)?,
        version: num(1, 1),
        steps: num(2, 65_535),
        dump: num(3, 1),
        ghost_limit: num(4, 1),
        materials: num(5, 1),
        levels: one(alloc, level(alloc, [4, 4, 4])?)?,
        vars: one(alloc, variable(9, 0))?,
        reductions: Items::new(alloc),
        init_line: 20,
        init: one(alloc, task(alloc, 21, 1, 22, Expr::Literal(9))?)?,
        timestep_line: 23,
        timestep: one(alloc, shift(alloc, -1)?)?,
        keeps: one(alloc, Keep { line: 27, name: 0 })?,
        end_line: 28,
    })
}

/// The first fault, `None` where the problem is accepted.
pub(crate) fn fault_of(problem: Problem) -> Result<Option<Fault>, Fail> {
    if !in_form(&problem) {
        return Err("not in form".into());
    }
    match check(problem) {
        Ok(_) => Ok(None),
        Err(Refusal::Fault(fault)) => Ok(Some(fault)),
        Err(Refusal::NoMemory) => Err("no memory".into()),
    }
}

pub(crate) fn at(line: u32, kind: FaultKind) -> Option<Fault> {
    Some(Fault { line, kind })
}

#[test]
fn a_problem_without_faults_is_given_back(rt: HostRuntime) -> Result<(), Fail> {
    let alloc = rt.alloc();
    let problem = problem(alloc)?;
    let text = format!(in alloc; "{problem:?}")?;
    if !in_form(&problem) {
        return Err("not in form".into());
    }
    match check(problem) {
        Ok(checked) => {
            let same = format!(in alloc; "{:?}", checked.problem())?;
            assert_eq!(rt; same.as_str(), text.as_str());
        }
        Err(_) => return Err("refused".into()),
    }
    Ok(())
}

#[test]
fn a_variable_is_declared_once(rt: HostRuntime) -> Result<(), Fail> {
    let mut problem = problem(rt.alloc())?;
    problem.vars.push(variable(10, 0))?;
    assert_eq!(rt; fault_of(problem)?, at(10, FaultKind::Twice));
    Ok(())
}

/// The first fault where the patch ends here.
fn fault_of_patch(alloc: Global, high: [u64; 3]) -> Result<Option<Fault>, Fail> {
    let mut problem = problem(alloc)?;
    problem.levels = one(alloc, level(alloc, high)?)?;
    fault_of(problem)
}

#[test]
fn of_two_kinds_on_a_line_the_first_is_answered(rt: HostRuntime) -> Result<(), Fail> {
    let alloc = rt.alloc();
    let far = FaultKind::TooLarge(Which::Bounds);
    assert_eq!(rt; fault_of_patch(alloc, [4, 4, 4])?, None);
    assert_eq!(rt;
        fault_of_patch(alloc, [4, 4, 3])?,
        at(6, FaultKind::BadGrid)
    );
    assert_eq!(rt; fault_of_patch(alloc, [4, 4, 4097])?, at(6, far));
    Ok(())
}

#[test]
fn of_two_lines_the_first_is_answered(rt: HostRuntime) -> Result<(), Fail> {
    let alloc = rt.alloc();
    let mut problem = problem(alloc)?;
    problem.timestep = one(alloc, shift(alloc, -2)?)?;
    problem.keeps.push(Keep { line: 28, name: 0 })?;
    problem.end_line = 29;
    assert_eq!(rt; fault_of(problem)?, at(26, FaultKind::ReadBeyondGhost));
    Ok(())
}
