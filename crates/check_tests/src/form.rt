use problem_types::{
    BoxLine, Centring, Expr, Fold, Ghost, GhostKind, How, Keep, Level, Name, NoMemory, Num, Op,
    Problem, Read, Reduction, Require, Store, Task, Var, What, Write, WriteKind,
    are_layers_in_form, copy, in_form, is_ascending, reduction_of, var_of,
};
use sqlite_items::{Boxed, Items};
use std::alloc::Global;
use std::test::Fail;

fn one<T: Drop>(alloc: Global, item: T) -> Result<Items<T>, NoMemory> {
    let mut items = Items::new(alloc);
    items.push(item)?;
    Ok(items)
}

fn read(offset: i64) -> Expr {
    Expr::Read(Read {
        store: Store::Old,
        how: How::Same,
        name: 0,
        offset: [offset, 0, 0],
    })
}

// The numbers on both sides along x, added up.
fn sum(alloc: Global) -> Result<Expr, NoMemory> {
    let left = Boxed::new(alloc, read(-1))?;
    let right = Boxed::new(alloc, read(1))?;
    Ok(Expr::Binary(Op::Add, left, right))
}

fn names(alloc: Global) -> Result<Items<Name>, NoMemory> {
    let mut names = one(alloc, Name::new(alloc, b"u")?)?;
    names.push(Name::new(alloc, b"start")?)?;
    names.push(Name::new(alloc, b"shift")?)?;
    Ok(names)
}

fn level(alloc: Global) -> Result<Level, NoMemory> {
    let cells = |line: u32| BoxLine {
        line,
        lo: [0, 0, 0],
        hi: [4096, 8, 8],
    };
    Ok(Level {
        line: 6,
        ratio: 1,
        boxes: one(alloc, cells(7))?,
        patches: one(alloc, cells(8))?,
    })
}

// A task that computes the variable, on the line `write`.
fn task(alloc: Global, line: u32, name: u32, write: u32, expr: Expr) -> Result<Task, NoMemory> {
    let write = Write {
        line: write,
        kind: WriteKind::Computes,
        name: 0,
        expr,
    };
    Ok(Task {
        line,
        name,
        levels: one(alloc, 0)?,
        materials: one(alloc, 0)?,
        requirements: Items::new(alloc),
        writes: one(alloc, write)?,
    })
}

fn shift(alloc: Global) -> Result<Task, NoMemory> {
    let layers = Ghost {
        kind: GhostKind::Cells,
        n: 8,
    };
    let mut shift = task(alloc, 14, 2, 16, sum(alloc)?)?;
    shift.requirements.push(Require {
        line: 15,
        store: Store::Old,
        what: What::Same { var: 0, layers },
    })?;
    Ok(shift)
}

// One level of one patch, one variable, and one task in each list.
fn problem(alloc: Global) -> Result<Problem, NoMemory> {
    let num = |line: u32, value: u64| Num { line, value };
    Ok(Problem {
        names: names(alloc)?,
        version: num(1, 1),
        steps: num(2, 65_535),
        dump: num(3, 1),
        ghost_limit: num(4, 8),
        materials: num(5, 1),
        levels: one(alloc, level(alloc)?)?,
        vars: one(
            alloc,
            Var {
                line: 9,
                name: 0,
                centring: Centring::Cell,
                outside: -7,
            },
        )?,
        reductions: Items::new(alloc),
        init_line: 10,
        init: one(alloc, task(alloc, 11, 1, 12, Expr::Literal(9))?)?,
        timestep_line: 13,
        timestep: one(alloc, shift(alloc)?)?,
        keeps: one(alloc, Keep { line: 17, name: 0 })?,
        end_line: 18,
    })
}

#[test]
fn a_name_is_its_bytes(rt: HostRuntime) -> Result<(), Fail> {
    assert_eq!(rt; Name::new(rt.alloc(), b"u")?.bytes(), b"u".as_slice());
    Ok(())
}

fn variable(line: u32, name: u32) -> Var {
    Var {
        line,
        name,
        centring: Centring::Node,
        outside: 0,
    }
}

#[test]
fn a_declaration_is_found_by_its_name(rt: HostRuntime) -> Result<(), Fail> {
    let mut problem = problem(rt.alloc())?;
    problem.vars.push(variable(10, 2))?;
    problem.vars.push(variable(10, 2))?;
    assert_eq!(rt; var_of(&problem, 0), Some(0));
    assert_eq!(rt; var_of(&problem, 1), None);
    assert_eq!(rt; var_of(&problem, 2), Some(1));
    for (line, name) in [(12, 1), (13, 2), (14, 2)] {
        problem.reductions.push(Reduction {
            line,
            name,
            fold: Fold::Max,
        })?;
    }
    assert_eq!(rt; reduction_of(&problem, 0), None);
    assert_eq!(rt; reduction_of(&problem, 1), Some(0));
    assert_eq!(rt; reduction_of(&problem, 2), Some(1));
    Ok(())
}

#[test]
fn a_copy_is_the_same_problem(rt: HostRuntime) -> Result<(), Fail> {
    let alloc = rt.alloc();
    let mut problem = problem(alloc)?;
    problem.reductions.push(Reduction {
        line: 10,
        name: 1,
        fold: Fold::Min,
    })?;
    let same = copy(alloc, &problem)?;
    let text = format!(in alloc; "{problem:?}")?;
    let copied = format!(in alloc; "{same:?}")?;
    assert_eq!(rt; copied.as_str(), text.as_str());
    Ok(())
}

fn with_levels(alloc: Global, levels: &[u64]) -> Result<Problem, NoMemory> {
    let mut problem = problem(alloc)?;
    if let Some(mut task) = problem.init.pop() {
        task.levels = Items::from_slice(alloc, levels)?;
        problem.init.push(task)?;
    }
    Ok(problem)
}

// Variables on lines 9 and 10, a reduction, and no task before the steps.
fn with_reduction(alloc: Global, line: u32, name: u32) -> Result<Problem, NoMemory> {
    let mut problem = problem(alloc)?;
    problem.init = Items::new(alloc);
    problem.init_line = 12;
    problem.vars.push(variable(10, 2))?;
    problem.reductions.push(Reduction {
        line,
        name,
        fold: Fold::Sum,
    })?;
    Ok(problem)
}

#[test]
fn number_lists_ascend_strictly(rt: HostRuntime) -> Result<(), Fail> {
    let alloc = rt.alloc();
    assert!(rt; is_ascending(&[]));
    assert!(rt; is_ascending(&[0, 2, 7]));
    assert!(rt; !is_ascending(&[0, 2, 2]));
    assert!(rt; in_form(&with_levels(alloc, &[0])?));
    assert!(rt; in_form(&with_levels(alloc, &[0, 2, 7])?));
    assert!(rt; !in_form(&with_levels(alloc, &[])?));
    assert!(rt; !in_form(&with_levels(alloc, &[2, 0])?));
    Ok(())
}

#[test]
fn variables_stand_before_reductions(rt: HostRuntime) -> Result<(), Fail> {
    let alloc = rt.alloc();
    assert!(rt; in_form(&with_reduction(alloc, 11, 2)?));
    assert!(rt; !in_form(&with_reduction(alloc, 11, 3)?));
    assert!(rt; !in_form(&with_reduction(alloc, 9, 2)?));
    assert!(rt; !in_form(&with_reduction(alloc, 10, 2)?));
    assert!(rt; !in_form(&with_reduction(alloc, 12, 2)?));
    Ok(())
}

#[test]
fn lines_are_below_2_to_the_31(rt: HostRuntime) -> Result<(), Fail> {
    let mut problem = problem(rt.alloc())?;
    problem.end_line = 2_147_483_647;
    assert!(rt; in_form(&problem));
    problem.end_line = 2_147_483_648;
    assert!(rt; !in_form(&problem));
    Ok(())
}

#[test]
fn layers_are_numbered_from_one_and_none_is_zero(rt: HostRuntime) {
    for (kind, n, want) in [
        (GhostKind::None, 0, true),
        (GhostKind::None, 1, false),
        (GhostKind::Cells, 0, false),
        (GhostKind::FaceZ, 1, true),
    ] {
        assert_eq!(rt; are_layers_in_form(Ghost { kind, n }), want);
    }
}
