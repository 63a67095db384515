//! Runs of problems that show one rule each, compared with the definition at each index.
use crate::drafts::{Draft, FIRST, SECOND, U, V, W, binary, new_draft, new_u, read, same, times};
use crate::runs::{Shown, clear, coarser, compare, declare, finer, keep_all};
use problem_types::{Centring, Expr, Ghost, GhostKind, How, NoMemory, Op, Store, What};
use std::alloc::Global;
use std::test::Fail;

/// A variable on the coarsest level at the start, whose indexes go from 0 up to here.
fn shown(above: &'static str, var: u32, hi: [i64; 3]) -> Shown {
    Shown {
        above,
        step: 0,
        var,
        material: 0,
        level: 0,
        hi,
    }
}

/// x + 10 y + 100 z.
fn place(alloc: Global) -> Result<Expr, NoMemory> {
    let tens = times(alloc, 10, Expr::Y)?;
    let both = binary(alloc, Op::Add, Expr::X, tens)?;
    let hundreds = times(alloc, 100, Expr::Z)?;
    binary(alloc, Op::Add, both, hundreds)
}

/// Four cells in two patches, and three variables of these centrings.
fn centred(d: &mut Draft, at: [Centring; 3]) -> Result<(), NoMemory> {
    let [u, v, w] = at;
    d.level(1, [0, 0, 0], 2, [4, 1, 1])?;
    d.variable(U, u, 0)?;
    d.variable(V, v, 0)?;
    d.variable(W, w, 0)
}

/// The first task puts its place on each index of the three variables.
fn fill(d: &mut Draft) -> Result<(), NoMemory> {
    d.init();
    d.task(FIRST, &[0], &[0])?;
    let (u, v, w) = (place(d.alloc)?, place(d.alloc)?, place(d.alloc)?);
    d.compute(U, u)?;
    d.compute(V, v)?;
    d.compute(W, w)?;
    d.timestep();
    clear(d)?;
    keep_all(d)
}

#[test]
fn faces_along_each_axis(rt: HostRuntime) -> Result<(), Fail> {
    let alloc = rt.alloc();
    let mut d = new_draft(alloc, 0, 1, 1);
    centred(&mut d, [Centring::FaceX, Centring::FaceY, Centring::FaceZ])?;
    fill(&mut d)?;
    let c = d.checked()?;
    let all = [
        shown("dump 1\nstep 0\nfield u 0 0 0 0 0 5 1 1\n", U, [5, 1, 1]),
        shown("field v 0 0 0 0 0 4 2 1\n", V, [4, 2, 1]),
        shown("field w 0 0 0 0 0 4 1 2\n", W, [4, 1, 2]),
    ];
    compare(&rt, alloc, &c, &all, "end\n")
}

/// The variable `u` is x on nodes, and `v` on cells the difference of the nodes on both sides.
fn subtract_nodes(d: &mut Draft) -> Result<(), NoMemory> {
    d.init();
    d.task(FIRST, &[0], &[0])?;
    d.compute(U, Expr::X)?;
    d.compute(W, Expr::Literal(0))?;
    d.task(SECOND, &[0], &[0])?;
    d.require(Store::New, same(U, 0))?;
    let difference = binary(d.alloc, Op::Sub, new_u(1), new_u(0))?;
    d.compute(V, difference)?;
    d.timestep();
    clear(d)?;
    keep_all(d)
}

#[test]
fn differences_of_nodes(rt: HostRuntime) -> Result<(), Fail> {
    let alloc = rt.alloc();
    let mut d = new_draft(alloc, 0, 1, 1);
    centred(&mut d, [Centring::Node, Centring::Cell, Centring::Cell])?;
    subtract_nodes(&mut d)?;
    let c = d.checked()?;
    let all = [
        shown("dump 1\nstep 0\nfield u 0 0 0 0 0 5 2 2\n", U, [5, 2, 2]),
        shown("field v 0 0 0 0 0 4 1 1\n", V, [4, 1, 1]),
        shown("field w 0 0 0 0 0 4 1 1\n", W, [4, 1, 1]),
    ];
    compare(&rt, alloc, &c, &all, "end\n")
}

/// Two layers of ghost cells, of which a kernel reads both.
fn reach_far(d: &mut Draft) -> Result<(), NoMemory> {
    d.ghost_limit(2);
    d.level(1, [0, 0, 0], 2, [4, 1, 1])?;
    d.variable(U, Centring::Cell, 1000)?;
    d.init();
    d.task(FIRST, &[0], &[0])?;
    d.compute(U, Expr::X)?;
    d.timestep();
    d.task(FIRST, &[0], &[0])?;
    d.require(Store::Old, same(U, 2))?;
    let left = read(Store::Old, How::Same, U, -2);
    let sum = binary(d.alloc, Op::Add, left, read(Store::Old, How::Same, U, 2))?;
    d.compute(U, sum)?;
    d.keep(U)
}

#[test]
fn two_layers_of_ghost_cells(rt: HostRuntime) -> Result<(), Fail> {
    let alloc = rt.alloc();
    let mut d = new_draft(alloc, 2, 1, 1);
    reach_far(&mut d)?;
    let c = d.checked()?;
    let all = [
        coarser("dump 1\nstep 0\nfield u 0 0 0 0 0 4 1 1\n", 0, U, 0),
        coarser("step 1\nfield u 0 0 0 0 0 4 1 1\n", 1, U, 0),
        coarser("step 2\nfield u 0 0 0 0 0 4 1 1\n", 2, U, 0),
    ];
    compare(&rt, alloc, &c, &all, "end\n")
}

/// The least number, divided with this operation by -1, 0, 1 and 2.
fn least_by(alloc: Global, op: Op) -> Result<Expr, NoMemory> {
    let negative = binary(alloc, Op::Sub, Expr::Literal(0), Expr::Literal(i64::MAX))?;
    let least = binary(alloc, Op::Sub, negative, Expr::Literal(1))?;
    let divisor = binary(alloc, Op::Sub, Expr::X, Expr::Literal(1))?;
    binary(alloc, op, least, divisor)
}

/// The variable `u` goes beyond the greatest number, and `v` and `w` divide the least one.
fn extremes(d: &mut Draft) -> Result<(), NoMemory> {
    d.init();
    d.task(FIRST, &[0], &[0])?;
    let beyond = binary(d.alloc, Op::Add, Expr::Literal(i64::MAX), Expr::X)?;
    d.compute(U, beyond)?;
    let quotient = least_by(d.alloc, Op::Div)?;
    d.compute(V, quotient)?;
    let rest = least_by(d.alloc, Op::Rem)?;
    d.compute(W, rest)?;
    d.timestep();
    clear(d)?;
    keep_all(d)
}

#[test]
fn arithmetic_at_its_ends(rt: HostRuntime) -> Result<(), Fail> {
    let alloc = rt.alloc();
    let mut d = new_draft(alloc, 0, 1, 1);
    centred(&mut d, [Centring::Cell; 3])?;
    extremes(&mut d)?;
    let c = d.checked()?;
    let all = [
        coarser("dump 1\nstep 0\nfield u 0 0 0 0 0 4 1 1\n", 0, U, 0),
        coarser("field v 0 0 0 0 0 4 1 1\n", 0, V, 0),
        coarser("field w 0 0 0 0 0 4 1 1\n", 0, W, 0),
    ];
    compare(&rt, alloc, &c, &all, "end\n")
}

/// On the coarser level `u` is x, and 0 outside. On the finer one `v` is `u` a coarse cell to the left, and `w` is 0.
fn read_coarser(d: &mut Draft) -> Result<(), NoMemory> {
    d.init();
    d.task(FIRST, &[0], &[0])?;
    d.compute(U, Expr::X)?;
    d.task(SECOND, &[1], &[0])?;
    let layers = Ghost {
        kind: GhostKind::Cells,
        n: 1,
    };
    d.require(Store::New, What::Coarse { var: U, layers })?;
    d.compute(V, read(Store::New, How::Coarse, U, -1))?;
    d.compute(W, Expr::Literal(0))?;
    d.timestep();
    clear(d)?;
    keep_all(d)
}

#[test]
fn coarse_reads_beyond_the_boundary(rt: HostRuntime) -> Result<(), Fail> {
    let alloc = rt.alloc();
    let mut d = new_draft(alloc, 0, 1, 1);
    d.level(1, [0, 0, 0], 2, [4, 1, 1])?;
    d.level(2, [0, 0, 0], 2, [4, 2, 2])?;
    declare(&mut d)?;
    read_coarser(&mut d)?;
    let c = d.checked()?;
    let all = [
        coarser("dump 1\nstep 0\nfield u 0 0 0 0 0 4 1 1\n", 0, U, 0),
        finer("field v 0 1 0 0 0 4 2 2\n", 0, V, 0),
        finer("field w 0 1 0 0 0 4 2 2\n", 0, W, 0),
    ];
    compare(&rt, alloc, &c, &all, "end\n")
}
