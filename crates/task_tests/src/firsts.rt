//! Step 0 of each problem, with the values worked out by hand.
use crate::places::{number, numbers};
use crate::problems::{FINE_SUMS, GHOST_CELLS, MODIFY, REDUCTIONS};
use crate::runs::ran;
use std::test::Fail;

#[test]
fn a_field_is_computed_patch_by_patch(rt: HostRuntime) -> Result<(), Fail> {
    let places = ran(rt.alloc(), GHOST_CELLS, 0)?;
    assert_eq!(rt; places.len(), 2);
    assert_eq!(rt; numbers(places.as_slice(), 0), [0, 10].as_slice());
    assert_eq!(rt; numbers(places.as_slice(), 1), [20, 30].as_slice());
    Ok(())
}

#[test]
fn readers_before_and_after_a_modify_see_what_stands(rt: HostRuntime) -> Result<(), Fail> {
    let places = ran(rt.alloc(), MODIFY, 0)?;
    // v, which reads u before it is modified, then u itself, and w, which reads it afterwards; each on two patches.
    for (slot, want) in [
        (2, [1, 2]),
        (3, [3, 0]),
        (4, [100, 101]),
        (5, [102, 103]),
        (6, [101, 102]),
        (7, [103, 0]),
    ] {
        assert_eq!(rt; numbers(places.as_slice(), slot), want.as_slice());
    }
    Ok(())
}

#[test]
fn finer_numbers_are_added_up(rt: HostRuntime) -> Result<(), Fail> {
    let places = ran(rt.alloc(), FINE_SUMS, 0)?;
    assert_eq!(rt;
        numbers(places.as_slice(), 0),
        [1, 1, 1, 1, 1, 1, 1, 1].as_slice()
    );
    for (slot, want) in [(1, [7, 7]), (2, [8, 0]), (3, [8, 0])] {
        assert_eq!(rt; numbers(places.as_slice(), slot), want.as_slice());
    }
    Ok(())
}

#[test]
fn a_kernel_has_its_material_and_level(rt: HostRuntime) -> Result<(), Fail> {
    let places = ran(rt.alloc(), REDUCTIONS, 0)?;
    assert_eq!(rt; numbers(places.as_slice(), 0), [0, 1].as_slice());
    assert_eq!(rt; numbers(places.as_slice(), 1), [10, 11].as_slice());
    let fine = [110, 111, 110, 111, 110, 111, 110, 111];
    assert_eq!(rt; numbers(places.as_slice(), 3), fine.as_slice());
    Ok(())
}

#[test]
fn a_reduction_combines_what_all_patches_share(rt: HostRuntime) -> Result<(), Fail> {
    let places = ran(rt.alloc(), REDUCTIONS, 0)?;
    // A part for each level and material, and then the whole.
    for (slot, want) in [(4, 4), (5, -6), (6, -96), (7, -106), (8, -106)] {
        assert_eq!(rt; number(places.as_slice(), slot), Some(want));
    }
    Ok(())
}
