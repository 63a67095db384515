//! Steps that read what the step before reduced.
use crate::places::{number, numbers};
use crate::problems::{DOUBLING, REDUCTIONS};
use crate::runs::ran;
use std::test::Fail;

#[test]
fn the_step_before_hands_its_reduction_on(rt: HostRuntime) -> Result<(), Fail> {
    let places = ran(rt.alloc(), REDUCTIONS, 1)?;
    let places = places.as_slice();
    assert_eq!(rt; places.len(), 4);
    assert_eq!(rt; numbers(places, 1), [-106, -106].as_slice());
    // The number of the step before, the part, and the whole.
    for (slot, want) in [(0, -106), (2, 0), (3, 0)] {
        assert_eq!(rt; number(places, slot), Some(want));
    }
    Ok(())
}

#[test]
fn each_step_begins_with_the_number_of_the_last_one(rt: HostRuntime) -> Result<(), Fail> {
    for (step, old) in [(1, 2), (2, 4), (3, 8)] {
        let places = ran(rt.alloc(), DOUBLING, step)?;
        let places = places.as_slice();
        assert_eq!(rt; number(places, 0), Some(old));
        // The part of each patch, and both together.
        assert_eq!(rt; number(places, 2), Some(old));
        assert_eq!(rt; number(places, 4), Some(old));
        assert_eq!(rt; number(places, 5), Some(2 * old));
    }
    Ok(())
}
