//! Small fields, read by hand.
ghost use Rattle.std.specs.Prelude.{◌≡◌, IfOk};
ghost use Rattle.whole_fields.specs.Shapes.{IsShapesOf};
ghost use Rattle.whole_fields.specs.Stored.{IsWarehouseOf};

use crate::drafts::{Draft, LOW, U, V, new_draft};
use kernel_ast::{How, Read, Store};
use kernel_rows::{KernelRow, Reads};
use problem_types::{Centring, Fold, NoMemory};
use std::alloc::Global;
use std::process::Abort;
use std::test::Fail;
use task_check::Checked;
use whole_fields::{Shapes, Stores, Warehouse};

/// Three cells by two by two, of which the first two along x and the first along y and z are refined by two. `u` stands on cells, and
/// `v` on the faces across x.
fn refined(d: &mut Draft) -> Result<(), NoMemory> {
    d.level(1, [0, 0, 0], 1, [3, 2, 2])?;
    d.level(2, [0, 0, 0], 2, [4, 2, 2])?;
    d.variable(U, Centring::Cell, -5)?;
    d.variable(V, Centring::FaceX, 7)?;
    d.reduction(LOW, Fold::Sum)?;
    d.init();
    d.timestep();
    Ok(())
}

/// A warehouse in which no variable has been put, and the reduction is 30.
fn reduced(alloc: Global, c: &Checked) -> Result<Warehouse, NoMemory>
    ensures { IfOk result (IsWarehouseOf c.now) }
{
    let mut warehouse = Warehouse::unset(alloc, c)?;
    if c.problem().names.len() > LOW as usize {
        warehouse.set_reduction(c, LOW, 30);
    }
    Ok(warehouse)
}

/// What a read sees at the x from -1 to 1, with y and z 0.
fn seen<R: Reads>(reads: &R, level: u32, store: Store, how: How, name: u32) -> [i64; 3] {
    let read = Read {
        store,
        how,
        name,
        offset: [0, 0, 0],
    };
    let row = KernelRow {
        step: 1,
        material: 0,
        level,
        y: 0,
        z: 0,
        low: -1,
        high: 2,
    };
    let mut out = [99; 3];
    reads.fill(&read, row, &mut out);
    out
}

/// The reads of kernels on the coarser level: before the first step 0 stands everywhere, and else what lies outside.
fn see_coarser_level(rt: &impl Abort, stores: &Stores) {
    for (store, how, name, want) in [
        (Store::Old, How::Same, U, [0, 0, 0]),
        (Store::New, How::Same, U, [-5, -5, -5]),
        (Store::New, How::FineSum, U, [0, -40, -40]),
        (Store::New, How::FineMin, U, [i64::MAX, -5, -5]),
        (Store::New, How::FineMax, U, [i64::MIN, -5, -5]),
        (Store::New, How::FineCount, U, [0, 8, 8]),
        (Store::New, How::FineSum, V, [0, 28, 28]),
        (Store::New, How::FineCount, V, [0, 4, 4]),
    ] {
        assert_eq!(rt; seen(stores, 0, store, how, name), want);
    }
    assert_eq!(rt; stores.number(Store::Old, LOW), 0);
    assert_eq!(rt; stores.number(Store::New, LOW), 30);
}

/// The two stores of kernels that run on material 0 and a level.
fn stores_on<'a>(
    c: &'a Checked,
    shapes: &'a Shapes,
    old: &'a Warehouse,
    new: &'a Warehouse,
    level: u32,
) -> Stores<'a>
    requires shaped { IsShapesOf c.now shapes.now }
    requires old_holds { IsWarehouseOf c.now old.now }
    requires new_holds { IsWarehouseOf c.now new.now }
    ensures { result.level ≡ level }
{
    Stores {
        checked: c,
        shapes,
        old,
        new,
        material: 0,
        level,
    }
}

/// What kernels see on both levels.
fn see_levels(rt: &impl Abort, alloc: Global, c: &Checked, new: &Warehouse) -> Result<(), Fail>
    requires { IsWarehouseOf c.now new.now }
{
    let shapes = &Shapes::of(alloc, c)?;
    let old = &Warehouse::nothing(alloc, c)?;
    see_coarser_level(rt, &stores_on(c, shapes, old, new, 0));
    let finer = stores_on(c, shapes, old, new, 1);
    let coarse = seen(&finer, 1, Store::New, How::Coarse, V);
    assert_eq!(rt; coarse, [7, 7, 7]);
    Ok(())
}

#[test]
fn reads_see_both_stores_and_all_levels(rt: HostRuntime) -> Result<(), Fail> {
    let alloc = rt.alloc();
    let mut d = new_draft(alloc, 1, 1, 1);
    refined(&mut d)?;
    let c = d.checked()?;
    let new = reduced(alloc, &c)?;
    see_levels(&rt, alloc, &c, &new)
}

/// A row of `v` on a level, at y and z 1.
fn row_of(alloc: Global, c: &Checked, new: &Warehouse, level: u32) -> Result<Vec<i64>, Fail>
    requires { IsWarehouseOf c.now new.now }
{
    let shapes = Shapes::of(alloc, c)?;
    let mut row = Vec::new(alloc);
    new.copy_row(c, &shapes, V, 0, level, 1, 1, &mut row)?;
    Ok(row)
}

#[test]
fn rows_are_as_long_as_the_index_space(rt: HostRuntime) -> Result<(), Fail> {
    let alloc = rt.alloc();
    let mut d = new_draft(alloc, 1, 1, 1);
    refined(&mut d)?;
    let c = d.checked()?;
    let new = reduced(alloc, &c)?;
    assert_eq!(rt; row_of(alloc, &c, &new, 1)?.as_slice(), [7; 5].as_slice());
    assert_eq!(rt; row_of(alloc, &c, &new, 2)?.len(), 0);
    Ok(())
}
