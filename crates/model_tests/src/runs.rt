//! Runs of small problems, compared with the definition at each index.
use crate::drafts::{
    Draft, FIRST, FOURTH, LOW, SECOND, THIRD, U, V, W, binary, new_draft, new_u, read, same, times,
};
use crate::witness::number;
use dump_text::RunFault;
use plain_engine::run_plain;
use problem_types::{Centring, Expr, Fold, How, NoMemory, Op, Store, What, WriteKind};
use std::alloc::Global;
use std::process::Abort;
use std::test::Fail;
use task_check::Checked;
use uts_geom::Index;
use uts_io::MemSink;
use uts_num::put_i64;

/// Rows of a field that the dump shows from 0 up to here, and the lines above them since the rows before.
#[derive(Clone, Copy)]
pub(crate) struct Shown {
    pub(crate) above: &'static str,
    pub(crate) step: u32,
    pub(crate) var: u32,
    pub(crate) material: u32,
    pub(crate) level: u32,
    pub(crate) hi: [i64; 3],
}

/// The number of a shown field by the definition.
fn number_at(c: &Checked, shown: &Shown, i: Index) -> Result<i64, Fail> {
    let found = number(c, shown.step, shown.var, shown.material, shown.level, i);
    Ok(found.ok_or("no such number")?)
}

/// The line of a row, by the definition.
fn put_row(text: &mut Vec<u8>, c: &Checked, shown: &Shown, y: i64, z: i64) -> Result<(), Fail> {
    for x in 0..shown.hi[0] {
        if x > 0 {
            text.push(b' ')?;
        }
        put_i64(text, number_at(c, shown, Index { x, y, z })?)?;
    }
    text.push(b'\n')?;
    Ok(())
}

fn put_plane(text: &mut Vec<u8>, c: &Checked, shown: &Shown, z: i64) -> Result<(), Fail> {
    for y in 0..shown.hi[1] {
        put_row(text, c, shown, y, z)?;
    }
    Ok(())
}

fn put_rows(text: &mut Vec<u8>, c: &Checked, shown: &Shown) -> Result<(), Fail> {
    text.extend_from_slice(shown.above.as_bytes())?;
    for z in 0..shown.hi[2] {
        put_plane(text, c, shown, z)?;
    }
    Ok(())
}

/// The dump by the definition, which has these lines below the last rows.
fn defined(alloc: Global, c: &Checked, all: &[Shown], below: &str) -> Result<Vec<u8>, Fail> {
    let mut text = Vec::new(alloc);
    for shown in all {
        put_rows(&mut text, c, shown)?;
    }
    text.extend_from_slice(below.as_bytes())?;
    Ok(text)
}

/// Runs a problem, and compares what it wrote with the definition.
pub(crate) fn compare(
    rt: &impl Abort,
    alloc: Global,
    c: &Checked,
    all: &[Shown],
    below: &str,
) -> Result<(), Fail> {
    let want = defined(alloc, c, all, below)?;
    let mut sink = MemSink::new(alloc, 4096, Vec::new(alloc))?;
    assert_eq!(rt; run_plain(alloc, c, &mut sink), Ok(()));
    assert_eq!(rt; sink.bytes(), want.as_slice());
    Ok(())
}

/// A variable on cells, with 0 outside.
fn cells(d: &mut Draft, name: u32) -> Result<(), NoMemory> {
    d.variable(name, Centring::Cell, 0)
}

/// Four cells in two patches, that start at ten times their x. In each step a cell becomes the sum of its neighbours.
fn two_patches(d: &mut Draft) -> Result<(), NoMemory> {
    d.level(1, [0, 0, 0], 2, [4, 1, 1])?;
    cells(d, U)?;
    d.init();
    d.task(FIRST, &[0], &[0])?;
    let tens = times(d.alloc, 10, Expr::X)?;
    d.compute(U, tens)?;
    d.timestep();
    d.task(FIRST, &[0], &[0])?;
    d.require(Store::Old, same(U, 1))?;
    let before = read(Store::Old, How::Same, U, -1);
    let sum = binary(d.alloc, Op::Add, before, read(Store::Old, How::Same, U, 1))?;
    d.compute(U, sum)?;
    d.keep(U)
}

/// The coarser level of each problem: a row of four cells.
pub(crate) fn coarser(above: &'static str, step: u32, var: u32, material: u32) -> Shown {
    Shown {
        above,
        step,
        var,
        material,
        level: 0,
        hi: [4, 1, 1],
    }
}

/// Its finer level, over the first two cells of the row.
pub(crate) fn finer(above: &'static str, step: u32, var: u32, material: u32) -> Shown {
    Shown {
        above,
        step,
        var,
        material,
        level: 1,
        hi: [4, 2, 2],
    }
}

#[test]
fn each_second_step_and_the_last_of_two_patches(rt: HostRuntime) -> Result<(), Fail> {
    let alloc = rt.alloc();
    let mut d = new_draft(alloc, 3, 2, 1);
    two_patches(&mut d)?;
    let c = d.checked()?;
    let all = [
        coarser("dump 1\nstep 0\nfield u 0 0 0 0 0 4 1 1\n", 0, U, 0),
        coarser("step 2\nfield u 0 0 0 0 0 4 1 1\n", 2, U, 0),
        coarser("step 3\nfield u 0 0 0 0 0 4 1 1\n", 3, U, 0),
    ];
    compare(&rt, alloc, &c, &all, "end\n")
}

#[test]
fn a_fault_of_the_sink_ends_the_run(rt: HostRuntime) -> Result<(), Fail> {
    let alloc = rt.alloc();
    let mut d = new_draft(alloc, 2, 1, 1);
    two_patches(&mut d)?;
    let c = d.checked()?;
    let mut sink = MemSink::new(alloc, 4096, Vec::from_slice(alloc, &[5])?)?;
    assert_eq!(rt; run_plain(alloc, &c, &mut sink), Err(RunFault::SinkFault));
    let taken = b"dump 1\nstep 0\nfield u 0 0 0 0 0 4 1 1\n0 10 20 30\nstep 1\n".as_slice();
    assert_eq!(rt; sink.bytes(), taken);
    Ok(())
}

/// Whatever computes the three variables as 0 on level 0.
pub(crate) fn clear(d: &mut Draft) -> Result<(), NoMemory> {
    d.task(FIRST, &[0], &[0])?;
    d.compute(U, Expr::Literal(0))?;
    d.compute(V, Expr::Literal(0))?;
    d.compute(W, Expr::Literal(0))
}

pub(crate) fn declare(d: &mut Draft) -> Result<(), NoMemory> {
    cells(d, U)?;
    cells(d, V)?;
    cells(d, W)
}

pub(crate) fn keep_all(d: &mut Draft) -> Result<(), NoMemory> {
    d.keep(U)?;
    d.keep(V)?;
    d.keep(W)
}

/// The variable `u` is x. A task reads it, one adds 100 to it, and one reads it again.
fn modify_between_readers(d: &mut Draft) -> Result<(), NoMemory> {
    d.task(FIRST, &[0], &[0])?;
    d.compute(U, Expr::X)?;
    d.task(SECOND, &[0], &[0])?;
    d.require(Store::New, same(U, 1))?;
    d.compute(V, new_u(1))?;
    d.task(THIRD, &[0], &[0])?;
    d.require(Store::New, same(U, 0))?;
    let more = binary(d.alloc, Op::Add, new_u(0), Expr::Literal(100))?;
    d.write(WriteKind::Modifies, U, more)?;
    d.task(FOURTH, &[0], &[0])?;
    d.require(Store::New, same(U, 1))?;
    d.compute(W, new_u(1))
}

fn modified(d: &mut Draft) -> Result<(), NoMemory> {
    d.level(1, [0, 0, 0], 2, [4, 1, 1])?;
    declare(d)?;
    d.init();
    modify_between_readers(d)?;
    d.timestep();
    clear(d)?;
    keep_all(d)
}

#[test]
fn a_modify_between_readers(rt: HostRuntime) -> Result<(), Fail> {
    let alloc = rt.alloc();
    let mut d = new_draft(alloc, 0, 1, 1);
    modified(&mut d)?;
    let c = d.checked()?;
    let all = [
        coarser("dump 1\nstep 0\nfield u 0 0 0 0 0 4 1 1\n", 0, U, 0),
        coarser("field v 0 0 0 0 0 4 1 1\n", 0, V, 0),
        coarser("field w 0 0 0 0 0 4 1 1\n", 0, W, 0),
    ];
    compare(&rt, alloc, &c, &all, "end\n")
}

/// On the finer level `u` is x, on the coarser one 7. There `v` is the sum of the children, and `w` their number.
fn sum_children(d: &mut Draft) -> Result<(), NoMemory> {
    d.task(FIRST, &[1], &[0])?;
    d.compute(U, Expr::X)?;
    d.task(SECOND, &[0], &[0])?;
    d.compute(U, Expr::Literal(7))?;
    d.task(THIRD, &[0], &[0])?;
    d.require(Store::New, What::Fine { var: U })?;
    d.compute(V, read(Store::New, How::FineSum, U, 0))?;
    d.compute(W, read(Store::New, How::FineCount, U, 0))
}

fn summed(d: &mut Draft) -> Result<(), NoMemory> {
    d.level(1, [0, 0, 0], 2, [4, 1, 1])?;
    d.level(2, [0, 0, 0], 2, [4, 2, 2])?;
    declare(d)?;
    d.init();
    sum_children(d)?;
    d.timestep();
    clear(d)?;
    keep_all(d)
}

#[test]
fn sums_over_children(rt: HostRuntime) -> Result<(), Fail> {
    let alloc = rt.alloc();
    let mut d = new_draft(alloc, 0, 1, 1);
    summed(&mut d)?;
    let c = d.checked()?;
    let all = [
        coarser("dump 1\nstep 0\nfield u 0 0 0 0 0 4 1 1\n", 0, U, 0),
        finer("field u 0 1 0 0 0 4 2 2\n", 0, U, 0),
        coarser("field v 0 0 0 0 0 4 1 1\n", 0, V, 0),
        coarser("field w 0 0 0 0 0 4 1 1\n", 0, W, 0),
    ];
    compare(&rt, alloc, &c, &all, "end\n")
}

/// x, and 10 for each material and 100 for each level before.
fn place(alloc: Global) -> Result<Expr, NoMemory> {
    let tens = times(alloc, 10, Expr::Material)?;
    let both = binary(alloc, Op::Add, Expr::X, tens)?;
    let hundreds = times(alloc, 100, Expr::Level)?;
    binary(alloc, Op::Add, both, hundreds)
}

/// On two levels and two materials `u` is the place, and the reduction the least of 5 less it. In the step `u` takes over what the
/// reduction was.
fn reduce_levels(d: &mut Draft) -> Result<(), NoMemory> {
    d.init();
    d.task(FIRST, &[0, 1], &[0, 1])?;
    let place = place(d.alloc)?;
    d.compute(U, place)?;
    d.task(SECOND, &[0, 1], &[0, 1])?;
    d.require(Store::New, same(U, 0))?;
    let less = binary(d.alloc, Op::Sub, Expr::Literal(5), new_u(0))?;
    d.reduce(LOW, less)?;
    d.timestep();
    d.task(FIRST, &[0], &[0])?;
    d.require(Store::Old, What::Number { name: LOW })?;
    let before = Expr::Number {
        store: Store::Old,
        name: LOW,
    };
    d.compute(U, before)?;
    d.reduce(LOW, Expr::X)
}

fn reduced(d: &mut Draft) -> Result<(), NoMemory> {
    d.level(1, [0, 0, 0], 2, [4, 1, 1])?;
    d.level(2, [0, 0, 0], 2, [4, 2, 2])?;
    cells(d, U)?;
    d.reduction(LOW, Fold::Min)?;
    reduce_levels(d)?;
    d.keep(U)?;
    d.keep(LOW)
}

#[test]
fn reductions_over_levels_and_materials(rt: HostRuntime) -> Result<(), Fail> {
    let alloc = rt.alloc();
    let mut d = new_draft(alloc, 1, 1, 2);
    reduced(&mut d)?;
    let c = d.checked()?;
    let last = "number l -108\nstep 1\nfield u 0 0 0 0 0 4 1 1\n";
    let all = [
        coarser("dump 1\nstep 0\nfield u 0 0 0 0 0 4 1 1\n", 0, U, 0),
        finer("field u 0 1 0 0 0 4 2 2\n", 0, U, 0),
        coarser("field u 1 0 0 0 0 4 1 1\n", 0, U, 1),
        finer("field u 1 1 0 0 0 4 2 2\n", 0, U, 1),
        coarser(last, 1, U, 0),
    ];
    compare(&rt, alloc, &c, &all, "number l 0\nend\n")
}
