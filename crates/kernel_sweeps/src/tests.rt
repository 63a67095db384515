//! Sweeps over six indexes, counted by hand.
ghost use Rattle.std.specs.Prelude.{◌≡◌, pos};

use crate::{Sweep, fill_field, fold_numbers, width};
use field_box::{Field, NoMemory};
use kernel_ast::{Expr, How, Op, Read, Store, in_form};
use kernel_rows::{KernelRow, Reads};
use reductions::Fold;
use sqlite_items::Boxed;
use std::alloc::{AllocError, Global};
use std::process::Abort;
use std::test::Fail;
use uts_geom::{Index, Span, volume};

/// Each read gives the y of its index, and each reduction its place among the names.
struct Heights;

impl Reads for Heights {
    ghost numbers = { λ heights read i. i.y };

    ghost reductions = { λ heights store name. pos name };

    fn fill(&self, _read: &Read, row: KernelRow, out: &mut [i64]) {
        out.fill(row.y);
    }

    fn number(&self, _store: Store, name: u32) -> i64 {
        i64::from(name)
    }
}

const SPAN: Span = Span {
    lo: Index { x: 1, y: 2, z: 5 },
    hi: Index { x: 4, y: 4, z: 6 },
};

/// x less y, which it reads.
fn kernel(alloc: Global) -> Result<Expr, AllocError> {
    let read = Read {
        store: Store::Old,
        how: How::Same,
        name: 0,
        offset: [0, 0, 0],
    };
    let x = Boxed::new(alloc, Expr::X)?;
    Ok(Expr::Binary(Op::Sub, x, Boxed::new(alloc, Expr::Read(read))?))
}

/// The kernel over `SPAN`, in step, material and level 0.
fn sweep(kernel: &Expr) -> Sweep<'_>
    ensures { result.kernel.now ≡ kernel.now × result.span ≡ SPAN }
{
    Sweep {
        kernel,
        step: 0,
        material: 0,
        level: 0,
        span: SPAN,
    }
}

fn folded(rt: &impl Abort, how: Fold, total: i64, kernel: &Expr) -> i64 {
    assert!(rt; in_form(kernel, 1));
    let mut scratch = [99; 387];
    fold_numbers(how, total, &sweep(kernel), &Heights, &mut scratch)
}

#[test]
fn numbers_are_combined(rt: HostRuntime) -> Result<(), Fail> {
    let kernel = kernel(rt.alloc())?;
    for (how, total, want) in [(Fold::Sum, 10, 7), (Fold::Min, 5, -2), (Fold::Max, -9, 1)] {
        assert_eq!(rt; folded(&rt, how, total, &kernel), want, "by {how:?}");
    }
    Ok(())
}

fn fill(rt: &impl Abort, kernel: &Expr, field: &mut Field)
    requires { field.old.span ≡ SPAN }
{
    assert!(rt; in_form(kernel, 1));
    let mut scratch = [99; 387];
    fill_field(&sweep(kernel), &Heights, field, &mut scratch);
}

#[test]
fn fields_are_filled(rt: HostRuntime) -> Result<(), Fail> {
    assert_eq!(rt; width(SPAN), 3);
    assert_eq!(rt; volume(SPAN), 6);
    let kernel = kernel(rt.alloc())?;
    let mut field = Field::filled(rt.alloc(), SPAN, 99)?;
    fill(&rt, &kernel, &mut field);
    assert_eq!(rt; field.numbers(), [-1, 0, 1, -2, -1, 0].as_slice());
    Ok(())
}
