//! Reads worked out by hand.
use crate::{Given, Part, Windows, eval};
use field_box::Field;
use ghost_gather::{NoMemory, Window};
use kernel_ast::{Expr, How, Read, Store, in_form};
use std::alloc::Global;
use std::process::Abort;
use std::test::Fail;
use uts_geom::{Centring, Index, Span, meet, volume};

const SPAN: Span = Span {
    lo: Index { x: -1, y: 0, z: 0 },
    hi: Index { x: 4, y: 1, z: 1 },
};

const SPACE: Span = Span {
    lo: Index { x: 0, y: 0, z: 0 },
    hi: Index { x: 2, y: 1, z: 1 },
};

/// A window of two ones, outside of which all is 7.
fn two_ones(alloc: Global) -> Result<Window, NoMemory> {
    if volume(meet(SPAN, SPACE)) > 2 || volume(SPACE) > 2 {
        return Err(NoMemory);
    }
    let mut window = Window::make(alloc, SPAN, SPACE, 7)?;
    window.put_part(&Field::filled(alloc, SPACE, 1)?);
    Ok(window)
}

/// The new `0` on the own level, the old `1` on the next finer level, and the new number `2`.
fn windows(alloc: Global) -> Result<Windows, Fail> {
    let mut parts = Vec::new(alloc);
    parts.push(Part {
        store: Store::New,
        how: How::Same,
        name: 0,
        centring: Centring::Cell,
        ratio: 1,
        window: two_ones(alloc)?,
    })?;
    parts.push(Part {
        store: Store::Old,
        how: How::FineSum,
        name: 1,
        centring: Centring::Cell,
        ratio: 2,
        window: two_ones(alloc)?,
    })?;
    let given = Given {
        store: Store::New,
        name: 2,
        number: 40,
    };
    Ok(Windows {
        parts,
        numbers: vec![in alloc; given]?,
        level: 1,
        material: 2,
        step: 3,
    })
}

fn read(store: Store, how: How, name: u32, x: i64) -> Expr {
    Expr::Read(Read {
        store,
        how,
        name,
        offset: [x, 0, 0],
    })
}

/// At x = 1.
fn number(rt: &impl Abort, e: Expr, w: &Windows) -> i64 {
    assert!(rt; in_form(&e, 9));
    eval(&e, w, Index { x: 1, y: 0, z: 0 })
}

#[test]
fn windows_are_read(rt: HostRuntime) -> Result<(), Fail> {
    let w = windows(rt.alloc())?;
    for (e, want) in [
        (read(Store::New, How::Same, 0, -1), 1),
        (read(Store::New, How::Same, 0, 1), 7),
        (read(Store::New, How::Same, 0, i64::MAX), 0),
        (read(Store::Old, How::Same, 0, -1), 0),
        (read(Store::Old, How::FineCount, 1, 0), 0),
        (read(Store::Old, How::FineMin, 1, 0), i64::MAX),
        (Expr::Level, 1),
        (Expr::Material, 2),
        (Expr::Step, 3),
    ] {
        assert_eq!(rt; number(&rt, e, &w), want);
    }
    Ok(())
}

#[test]
fn given_numbers_are_read(rt: HostRuntime) -> Result<(), Fail> {
    let w = windows(rt.alloc())?;
    for (store, want) in [(Store::New, 40), (Store::Old, 0)] {
        assert_eq!(rt; number(&rt, Expr::Number { store, name: 2 }, &w), want);
    }
    Ok(())
}
