//! Small problems, with their numbers worked out by hand.
use crate::drafts::{accepted, binary, num, read, same};
use problem_types::{
    BoxLine, Centring, Expr, Fold, Ghost, GhostKind, How, Level, Name, NoMemory, Op, Problem,
    Reduction, Require, Store, Task, Var, What, Write, WriteKind,
};
use sqlite_items::Items;
use std::alloc::Global;
use std::test::Fail;
use uts_geom::Index;
use uts_model::{Checked, at_index};

fn one<T: Drop>(alloc: Global, item: T) -> Result<Items<T>, NoMemory> {
    let mut items = Items::new(alloc);
    items.push(item)?;
    Ok(items)
}

fn two<T: Drop>(alloc: Global, first: T, second: T) -> Result<Items<T>, NoMemory> {
    let mut items = one(alloc, first)?;
    items.push(second)?;
    Ok(items)
}

/// Six names of one letter.
fn names(alloc: Global) -> Result<Items<Name>, NoMemory> {
    let mut names = Items::new(alloc);
    for letter in [b"a", b"b", b"c", b"d", b"e", b"f"] {
        names.push(Name::new(alloc, letter)?)?;
    }
    Ok(names)
}

fn cells(line: u32, lo: [u64; 3], hi: [u64; 3]) -> BoxLine {
    BoxLine { line, lo, hi }
}

/// The coarsest level: so many cells in a row, in one patch.
fn row(alloc: Global, width: u64) -> Result<Level, NoMemory> {
    Ok(Level {
        line: 6,
        ratio: 1,
        boxes: one(alloc, cells(7, [0, 0, 0], [width, 1, 1]))?,
        patches: one(alloc, cells(8, [0, 0, 0], [width, 1, 1]))?,
    })
}

/// The finer level, of ratio 2: two rows of two cells deep between these bounds along x, in one patch.
fn fine(alloc: Global, low: u64, high: u64) -> Result<Level, NoMemory> {
    Ok(Level {
        line: 9,
        ratio: 2,
        boxes: one(alloc, cells(10, [low, 0, 0], [high, 2, 2]))?,
        patches: one(alloc, cells(11, [low, 0, 0], [high, 2, 2]))?,
    })
}

/// A variable on cells.
fn variable(line: u32, name: u32, outside: i64) -> Var {
    Var {
        line,
        name,
        centring: Centring::Cell,
        outside,
    }
}

fn write(line: u32, kind: WriteKind, name: u32, expr: Expr) -> Write {
    Write {
        line,
        kind,
        name,
        expr,
    }
}

/// A task on one level for material 0, that requires nothing.
fn task(alloc: Global, line: u32, name: u32, level: u64, write: Write) -> Result<Task, NoMemory> {
    Ok(Task {
        line,
        name,
        levels: one(alloc, level)?,
        materials: one(alloc, 0)?,
        requirements: Items::new(alloc),
        writes: one(alloc, write)?,
    })
}

/// The task, with one more requirement.
fn requiring(mut task: Task, line: u32, store: Store, what: What) -> Result<Task, NoMemory> {
    task.requirements.push(Require { line, store, what })?;
    Ok(task)
}

/// A problem of three steps and two materials, without reductions.
fn problem(
    alloc: Global,
    levels: Items<Level>,
    vars: Items<Var>,
    init: Items<Task>,
    timestep: Items<Task>,
) -> Result<Problem, NoMemory> {
    Ok(Problem {
        names: names(alloc)?,
        version: num(1, 1),
        steps: num(2, 3),
        dump: num(3, 1),
        ghost_limit: num(4, 1),
        materials: num(5, 2),
        levels,
        vars,
        reductions: Items::new(alloc),
        init_line: 50,
        init,
        timestep_line: 70,
        timestep,
        keeps: Items::new(alloc),
        end_line: 90,
    })
}

fn at(x: i64, y: i64, z: i64) -> Index {
    Index { x, y, z }
}

/// The number of a variable by the definition, `None` where there is none.
pub(crate) fn number(
    c: &Checked,
    step: u32,
    var: u32,
    material: u32,
    level: u32,
    i: Index,
) -> Option<i64> {
    let p = c.problem();
    if step > 3 || u64::from(step) > p.steps.value || var as usize >= p.vars.len() {
        return None;
    }
    if u64::from(material) >= p.materials.value || level as usize >= p.levels.len() {
        return None;
    }
    Some(at_index(c, step, var, material, level, i))
}

/// The number of a variable of material 0 on level 0 in the row of cells.
fn in_row(c: &Checked, step: u32, var: u32, x: i64) -> Option<i64> {
    number(c, step, var, 0, 0, at(x, 0, 0))
}

/// Two cells that start at 3. In each step a cell becomes ten times the one before it and the one after it.
fn shifted(alloc: Global) -> Result<Problem, NoMemory> {
    let start = write(52, WriteKind::Computes, 0, Expr::Literal(3));
    let before = read(Store::Old, How::Same, 0, -1);
    let after = read(Store::Old, How::Same, 0, 1);
    let tens = binary(alloc, Op::Mul, before, Expr::Literal(10))?;
    let sum = write(
        73,
        WriteKind::Computes,
        0,
        binary(alloc, Op::Add, tens, after)?,
    );
    let shift = requiring(task(alloc, 71, 2, 0, sum)?, 72, Store::Old, same(0, 1))?;
    problem(
        alloc,
        one(alloc, row(alloc, 2)?)?,
        one(alloc, variable(20, 0, -5))?,
        one(alloc, task(alloc, 51, 1, 0, start)?)?,
        one(alloc, shift)?,
    )
}

#[test]
fn two_cells_are_shifted(rt: HostRuntime) -> Result<(), Fail> {
    let c = accepted(shifted(rt.alloc())?)?;
    assert_eq!(rt; in_row(&c, 0, 0, 0), Some(3));
    assert_eq!(rt; in_row(&c, 1, 0, 0), Some(-47));
    assert_eq!(rt; in_row(&c, 1, 0, 1), Some(25));
    assert_eq!(rt; in_row(&c, 2, 0, 0), Some(-25));
    assert_eq!(rt; in_row(&c, 2, 0, 1), Some(-475));
    for (x, y, z) in [
        (-1, 0, 0),
        (2, 0, 0),
        (0, 1, 0),
        (0, 0, -1),
        (i64::MAX, 0, 0),
        (0, i64::MIN, 0),
    ] {
        assert_eq!(rt; number(&c, 2, 0, 0, 0, at(x, y, z)), Some(-5));
    }
    assert_eq!(rt; number(&c, 2, 0, 1, 0, at(0, 0, 0)), Some(-5));
    Ok(())
}

/// The variables `a`, `b` and `c`, with 0 outside.
fn three_variables(alloc: Global) -> Result<Items<Var>, NoMemory> {
    let mut vars = two(alloc, variable(20, 0, 0), variable(21, 1, 0))?;
    vars.push(variable(22, 2, 0))?;
    Ok(vars)
}

/// What the tasks before left in `a` where the kernel runs.
fn own() -> Expr {
    read(Store::New, How::Same, 0, 0)
}

/// A task that requires `a` where it runs, on the line `require`.
fn reader(
    alloc: Global,
    line: u32,
    require: u32,
    name: u32,
    write: Write,
) -> Result<Task, NoMemory> {
    let reader = task(alloc, line, name, 0, write)?;
    requiring(reader, require, Store::New, same(0, 0))
}

/// The variable `a` is computed, taken over by `b`, doubled, and taken over by `c`.
fn doubling_tasks(alloc: Global) -> Result<Items<Task>, NoMemory> {
    let five = write(52, WriteKind::Computes, 0, Expr::Literal(5));
    let mut tasks = one(alloc, task(alloc, 51, 0, 0, five)?)?;
    let earlier = write(55, WriteKind::Computes, 1, own());
    tasks.push(reader(alloc, 53, 54, 1, earlier)?)?;
    let sum = binary(alloc, Op::Add, own(), own())?;
    let twice = write(58, WriteKind::Modifies, 0, sum);
    tasks.push(reader(alloc, 56, 57, 2, twice)?)?;
    let later = write(61, WriteKind::Computes, 2, own());
    tasks.push(reader(alloc, 59, 60, 3, later)?)?;
    Ok(tasks)
}

fn doubled(alloc: Global) -> Result<Problem, NoMemory> {
    let levels = one(alloc, row(alloc, 1)?)?;
    let vars = three_variables(alloc)?;
    problem(
        alloc,
        levels,
        vars,
        doubling_tasks(alloc)?,
        Items::new(alloc),
    )
}

#[test]
fn a_reader_before_a_modify_sees_what_stood_before(rt: HostRuntime) -> Result<(), Fail> {
    let c = accepted(doubled(rt.alloc())?)?;
    assert_eq!(rt; in_row(&c, 0, 0, 0), Some(10));
    assert_eq!(rt; in_row(&c, 0, 1, 0), Some(5));
    assert_eq!(rt; in_row(&c, 0, 2, 0), Some(10));
    Ok(())
}

/// Four cells, some of them refined by 2: those under the fine cells between these bounds.
fn refined(alloc: Global, low: u64, high: u64) -> Result<Items<Level>, NoMemory> {
    two(alloc, row(alloc, 4)?, fine(alloc, low, high)?)
}

/// The variable `b` on the finer level takes over what `a` has on the coarser one, one cell before.
fn taken_from_coarse(alloc: Global) -> Result<Problem, NoMemory> {
    let tens = binary(alloc, Op::Mul, Expr::X, Expr::Literal(10))?;
    let coarse = write(52, WriteKind::Computes, 0, tens);
    let before = read(Store::New, How::Coarse, 0, -1);
    let take = task(alloc, 53, 1, 1, write(55, WriteKind::Computes, 1, before))?;
    let layers = Ghost {
        kind: GhostKind::Cells,
        n: 1,
    };
    let take = requiring(take, 54, Store::New, What::Coarse { var: 0, layers })?;
    problem(
        alloc,
        refined(alloc, 0, 4)?,
        two(alloc, variable(20, 0, -5), variable(21, 1, 0))?,
        two(alloc, task(alloc, 51, 0, 0, coarse)?, take)?,
        Items::new(alloc),
    )
}

#[test]
fn a_coarse_read_goes_by_the_index_rounded_down(rt: HostRuntime) -> Result<(), Fail> {
    let c = accepted(taken_from_coarse(rt.alloc())?)?;
    for (x, want) in [(0, -5), (1, -5), (2, 0), (3, 0)] {
        assert_eq!(rt; number(&c, 0, 1, 0, 1, at(x, 1, 0)), Some(want));
    }
    Ok(())
}

/// A task that takes over the sum and the number of the children of `a`, as `b` and as `c`.
fn gathering_task(alloc: Global) -> Result<Task, NoMemory> {
    let sum = read(Store::New, How::FineSum, 0, 0);
    let gather = task(alloc, 53, 1, 0, write(55, WriteKind::Computes, 1, sum))?;
    let mut gather = requiring(gather, 54, Store::New, What::Fine { var: 0 })?;
    let count = read(Store::New, How::FineCount, 0, 0);
    gather
        .writes
        .push(write(56, WriteKind::Computes, 2, count))?;
    Ok(gather)
}

/// The variable `a` on the finer level is x + 10 y. On the coarser one `b` is its sum over the children and `c` their number.
fn gathered_from_fine(alloc: Global) -> Result<Problem, NoMemory> {
    let tens = binary(alloc, Op::Mul, Expr::Y, Expr::Literal(10))?;
    let sum = binary(alloc, Op::Add, Expr::X, tens)?;
    let compute = task(alloc, 51, 0, 1, write(52, WriteKind::Computes, 0, sum))?;
    let init = two(alloc, compute, gathering_task(alloc)?)?;
    let levels = refined(alloc, 2, 6)?;
    problem(
        alloc,
        levels,
        three_variables(alloc)?,
        init,
        Items::new(alloc),
    )
}

#[test]
fn a_fine_read_goes_over_the_children_that_there_are(rt: HostRuntime) -> Result<(), Fail> {
    let c = accepted(gathered_from_fine(rt.alloc())?)?;
    for (x, sum, count) in [(0, 0, 0), (1, 60, 8), (2, 76, 8), (3, 0, 0)] {
        assert_eq!(rt; in_row(&c, 0, 1, x), Some(sum));
        assert_eq!(rt; in_row(&c, 0, 2, x), Some(count));
    }
    Ok(())
}

/// The reduction `f` is the least of x + 7 on the coarser level and x - 13 on the finer one; later it is 1. In each step `a` takes over
/// what it was at the end of the step before.
fn reduced(alloc: Global) -> Result<Problem, NoMemory> {
    let twenty = binary(alloc, Op::Mul, Expr::Level, Expr::Literal(20))?;
    let shifted = binary(alloc, Op::Add, Expr::X, Expr::Literal(7))?;
    let least = binary(alloc, Op::Sub, shifted, twenty)?;
    let kind = WriteKind::Reduces(Centring::Cell);
    let mut reduce = task(alloc, 51, 0, 0, write(52, kind, 5, least))?;
    reduce.levels.push(1)?;
    let taken = Expr::Number {
        store: Store::Old,
        name: 5,
    };
    let take = task(alloc, 71, 0, 0, write(73, WriteKind::Computes, 0, taken))?;
    let take = requiring(take, 72, Store::Old, What::Number { name: 5 })?;
    let again = task(alloc, 74, 1, 0, write(75, kind, 5, Expr::Literal(1)))?;
    let mut problem = problem(
        alloc,
        refined(alloc, 2, 6)?,
        one(alloc, variable(20, 0, 0))?,
        one(alloc, reduce)?,
        two(alloc, take, again)?,
    )?;
    problem.reductions.push(Reduction {
        line: 40,
        name: 5,
        fold: Fold::Min,
    })?;
    Ok(problem)
}

#[test]
fn a_reduction_goes_over_all_levels_of_its_task(rt: HostRuntime) -> Result<(), Fail> {
    let c = accepted(reduced(rt.alloc())?)?;
    assert_eq!(rt; in_row(&c, 1, 0, 3), Some(-11));
    assert_eq!(rt; in_row(&c, 2, 0, 3), Some(1));
    Ok(())
}

/// The variable `a` is 1 for material 0, and 2 for material 1.
fn of_two_materials(alloc: Global) -> Result<Problem, NoMemory> {
    let first = write(52, WriteKind::Computes, 0, Expr::Literal(1));
    let second = write(54, WriteKind::Computes, 0, Expr::Literal(2));
    let mut other = task(alloc, 53, 1, 0, second)?;
    other.materials = one(alloc, 1)?;
    problem(
        alloc,
        one(alloc, row(alloc, 1)?)?,
        one(alloc, variable(20, 0, 0))?,
        two(alloc, task(alloc, 51, 0, 0, first)?, other)?,
        Items::new(alloc),
    )
}

#[test]
fn materials_have_numbers_of_their_own(rt: HostRuntime) -> Result<(), Fail> {
    let c = accepted(of_two_materials(rt.alloc())?)?;
    assert_eq!(rt; number(&c, 0, 0, 0, 0, at(0, 0, 0)), Some(1));
    assert_eq!(rt; number(&c, 0, 0, 1, 0, at(0, 0, 0)), Some(2));
    Ok(())
}
