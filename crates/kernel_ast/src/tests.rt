//! Values counted by hand.
use crate::{Expr, How, NoMemory, Op, Read, Store, copy, depth, in_form, nodes};
use sqlite_items::Boxed;
use std::alloc::Global;
use std::test::Fail;

fn added(alloc: Global, a: Expr, b: Expr) -> Result<Expr, NoMemory> {
    let b = Boxed::new(alloc, b)?;
    Ok(Expr::Binary(Op::Add, Boxed::new(alloc, a)?, b))
}

fn negated(alloc: Global, a: Expr) -> Result<Expr, NoMemory> {
    Ok(Expr::Neg(Boxed::new(alloc, a)?))
}

fn selected(alloc: Global, c: Expr, a: Expr, b: Expr) -> Result<Expr, NoMemory> {
    let b = Boxed::new(alloc, b)?;
    let a = Boxed::new(alloc, a)?;
    Ok(Expr::Select(Boxed::new(alloc, c)?, a, b))
}

fn read(how: How, name: u32, offset: [i64; 3]) -> Expr {
    Expr::Read(Read {
        store: Store::Old,
        how,
        name,
        offset,
    })
}

fn number(name: u32) -> Expr {
    Expr::Number {
        store: Store::New,
        name,
    }
}

#[test]
fn counts_depth_and_nodes(rt: HostRuntime) -> Result<(), Fail> {
    let alloc = rt.alloc();
    let sum = added(
        alloc,
        added(alloc, Expr::Literal(1), Expr::X)?,
        Expr::Literal(2),
    )?;
    assert!(rt; in_form(&sum, 0));
    assert_eq!(rt; depth(&sum), 3);
    assert_eq!(rt; nodes(&sum), 5);

    let choice = selected(alloc, Expr::Step, negated(alloc, sum)?, number(3))?;
    assert!(rt; in_form(&choice, 4));
    assert_eq!(rt; depth(&choice), 5);
    assert_eq!(rt; nodes(&choice), 9);
    Ok(())
}

#[test]
fn copies_each_form(rt: HostRuntime) -> Result<(), Fail> {
    let alloc = rt.alloc();
    let places = selected(alloc, Expr::X, Expr::Y, Expr::Z)?;
    let counts = selected(alloc, Expr::Level, Expr::Material, Expr::Step)?;
    let reads = added(alloc, read(How::Coarse, 2, [1, -1, 0]), number(5))?;
    let e = selected(
        alloc,
        negated(alloc, Expr::Literal(7))?,
        added(alloc, places, counts)?,
        reads,
    )?;
    let same = copy(alloc, &e)?;
    let text = format!(in alloc; "{e:?}")?;
    let copied = format!(in alloc; "{same:?}")?;
    assert_eq!(rt; copied.as_str(), text.as_str());
    Ok(())
}

#[test]
fn tells_each_broken_rule(rt: HostRuntime) -> Result<(), Fail> {
    let alloc = rt.alloc();
    for (e, want) in [
        (Expr::Literal(0), true),
        (Expr::Literal(-1), false),
        (read(How::Same, 1, [-1, 0, 2]), true),
        (read(How::Same, 2, [-1, 0, 2]), false),
        (read(How::Coarse, 1, [0, 3, 0]), true),
        (read(How::FineSum, 1, [0, 0, 0]), true),
        (read(How::FineMin, 1, [0, 0, 1]), false),
        (read(How::FineMax, 1, [1, 0, 0]), false),
        (read(How::FineCount, 1, [0, -1, 0]), false),
        (number(1), true),
        (number(2), false),
        (negated(alloc, Expr::Literal(-1))?, false),
        (added(alloc, Expr::X, number(2))?, false),
        (selected(alloc, number(2), Expr::X, Expr::Y)?, false),
        (selected(alloc, Expr::X, number(2), Expr::Y)?, false),
        (selected(alloc, Expr::X, Expr::Y, number(2))?, false),
    ] {
        assert_eq!(rt; in_form(&e, 2), want, "{e:?}");
    }
    Ok(())
}

#[test]
fn takes_64_levels_and_256_nodes(rt: HostRuntime) -> Result<(), Fail> {
    let alloc = rt.alloc();
    let mut chain = Expr::X;
    for _ in 0..63 {
        chain = negated(alloc, chain)?;
    }
    assert!(rt; in_form(&chain, 0));
    let chain = negated(alloc, chain)?;
    assert!(rt; !in_form(&chain, 0));

    let mut tree = Expr::X;
    for _ in 0..7 {
        tree = added(alloc, copy(alloc, &tree)?, tree)?;
    }
    let tree = negated(alloc, tree)?;
    assert!(rt; in_form(&tree, 0));
    let tree = negated(alloc, tree)?;
    assert!(rt; !in_form(&tree, 0));
    Ok(())
}
