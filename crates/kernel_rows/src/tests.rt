//! Rows of three numbers, counted by hand.
ghost use Rattle.std.specs.Prelude.{pos};
ghost use Rattle.kernel_ast.specs.Arithmetic.{difference_of};

use crate::loops::{fill_ascending, negate_all};
use crate::{KernelRow, Reads, evaluate, scratch_places};
use kernel_ast::{Expr, How, Op, Read, Store, in_form};
use sqlite_items::Boxed;
use std::alloc::{AllocError, Global};
use std::process::Abort;
use std::test::Fail;

/// Each read gives 0 less the x of its index, and each reduction its place among the names.
struct Mirror;

impl Reads for Mirror {
    ghost numbers = { λ mirror read i. difference_of (pos 0) i.x };

    ghost reductions = { λ mirror store name. pos name };

    fn fill(&self, _read: &Read, row: KernelRow, out: &mut [i64]) {
        fill_ascending(row, out);
        negate_all(out);
    }

    fn number(&self, _store: Store, name: u32) -> i64 {
        i64::from(name)
    }
}

const ROW: KernelRow = KernelRow {
    step: 4,
    material: 2,
    level: 1,
    y: -8,
    z: 9,
    low: 5,
    high: 8,
};

// At x = 5, 6 and 7.
fn along(rt: &impl Abort, kernel: &Expr) -> [i64; 3] {
    assert!(rt; in_form(kernel, 9));
    let mut out = [99; 3];
    let mut scratch = [99; 384];
    evaluate(kernel, ROW, &Mirror, &mut out, &mut scratch);
    out
}

fn negated(alloc: Global, a: Expr) -> Result<Expr, AllocError> {
    Ok(Expr::Neg(Boxed::new(alloc, a)?))
}

fn binary(alloc: Global, op: Op, a: Expr, b: Expr) -> Result<Expr, AllocError> {
    let a = Boxed::new(alloc, a)?;
    Ok(Expr::Binary(op, a, Boxed::new(alloc, b)?))
}

fn selected(alloc: Global, c: Expr, a: Expr, b: Expr) -> Result<Expr, AllocError> {
    let c = Boxed::new(alloc, c)?;
    let a = Boxed::new(alloc, a)?;
    Ok(Expr::Select(c, a, Boxed::new(alloc, b)?))
}

// x - 6: -1, 0 and 1 along the row.
fn centred(alloc: Global) -> Result<Expr, AllocError> {
    binary(alloc, Op::Sub, Expr::X, Expr::Literal(6))
}

#[test]
fn leaves_fill_the_row(rt: HostRuntime) {
    let read = Read {
        store: Store::Old,
        how: How::Same,
        name: 3,
        offset: [1, 0, 0],
    };
    let number = Expr::Number {
        store: Store::New,
        name: 7,
    };
    for (leaf, want) in [
        (Expr::Literal(40), [40, 40, 40]),
        (Expr::X, [5, 6, 7]),
        (Expr::Y, [-8, -8, -8]),
        (Expr::Z, [9, 9, 9]),
        (Expr::Level, [1, 1, 1]),
        (Expr::Material, [2, 2, 2]),
        (Expr::Step, [4, 4, 4]),
        (Expr::Read(read), [-5, -6, -7]),
        (number, [7, 7, 7]),
    ] {
        assert_eq!(rt; along(&rt, &leaf), want, "at {leaf:?}");
    }
}

#[test]
fn operations_go_place_by_place(rt: HostRuntime) -> Result<(), Fail> {
    for (op, want) in [
        (Op::Add, [11, 12, 13]),
        (Op::Sub, [-1, 0, 1]),
        (Op::Mul, [30, 36, 42]),
        (Op::Div, [0, 1, 1]),
        (Op::Rem, [5, 0, 1]),
        (Op::Lt, [1, 0, 0]),
        (Op::Le, [1, 1, 0]),
        (Op::Gt, [0, 0, 1]),
        (Op::Ge, [0, 1, 1]),
        (Op::Eq, [0, 1, 0]),
        (Op::Ne, [1, 0, 1]),
        (Op::Min, [5, 6, 6]),
        (Op::Max, [6, 6, 7]),
    ] {
        let kernel = binary(rt.alloc(), op, Expr::X, Expr::Literal(6))?;
        assert_eq!(rt; along(&rt, &kernel), want, "by {op:?}");
    }
    Ok(())
}

#[test]
fn division_by_0_gives_0(rt: HostRuntime) -> Result<(), Fail> {
    for (op, want) in [(Op::Div, [-5, 0, 7]), (Op::Rem, [0, 0, 0])] {
        let kernel = binary(rt.alloc(), op, Expr::X, centred(rt.alloc())?)?;
        assert_eq!(rt; along(&rt, &kernel), want, "by {op:?}");
    }
    Ok(())
}

// The least number by -1, 0 and 1.
fn least_by_centred(alloc: Global, op: Op) -> Result<Expr, AllocError> {
    let near = negated(alloc, Expr::Literal(i64::MAX))?;
    let least = binary(alloc, Op::Sub, near, Expr::Literal(1))?;
    binary(alloc, op, least, centred(alloc)?)
}

#[test]
fn the_least_number_is_divided(rt: HostRuntime) -> Result<(), Fail> {
    for (op, want) in [(Op::Div, [i64::MIN, 0, i64::MIN]), (Op::Rem, [0, 0, 0])] {
        let kernel = least_by_centred(rt.alloc(), op)?;
        assert_eq!(rt; along(&rt, &kernel), want, "by {op:?}");
    }
    Ok(())
}

// At x = 6 100, below it y, and above it z.
fn nested(alloc: Global) -> Result<Expr, AllocError> {
    let above = binary(alloc, Op::Gt, Expr::X, Expr::Literal(6))?;
    let beside = selected(alloc, above, Expr::Z, Expr::Y)?;
    selected(alloc, centred(alloc)?, beside, Expr::Literal(100))
}

#[test]
fn selections_take_the_last_at_0_alone(rt: HostRuntime) -> Result<(), Fail> {
    let kernel = nested(rt.alloc())?;
    assert_eq!(rt; along(&rt, &kernel), [-8, 100, 9]);
    Ok(())
}

// x - (x - (x - .. x)): 0 where there is an even number of them.
fn alternating(alloc: Global, depth: u32) -> Result<Expr, AllocError> {
    let mut kernel = Expr::X;
    for _ in 1..depth {
        kernel = binary(alloc, Op::Sub, Expr::X, kernel)?;
    }
    Ok(kernel)
}

#[test]
fn the_deepest_kernels_have_room(rt: HostRuntime) -> Result<(), Fail> {
    for (depth, want) in [(63, [5, 6, 7]), (64, [0, 0, 0])] {
        let kernel = alternating(rt.alloc(), depth)?;
        assert_eq!(rt; along(&rt, &kernel), want, "{depth} deep");
    }
    assert_eq!(rt; scratch_places(3, 64), 384);
    Ok(())
}
