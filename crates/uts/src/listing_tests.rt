//! Listings by `graph`. Their lines are worked out by hand.
use crate::tests::{CALM, Faults, TWO_PATCHES, call};
use std::test::Fail;

const TWO_PATCHES_LISTING: &str =
    "graph 1\nplan init tasks 2 slots 2 reads 0\nslot 0 new u material 0 level 0 patch 0 version 0 uses 2 kept 1\nslot 1 new u material 0 level 0 patch 1 version 0 uses 2 kept 1\ntask 0 start level 0 material 0 patch 0 reads writes 0 after\ntask 1 start level 0 material 0 patch 1 reads writes 1 after\nplan timestep tasks 2 slots 4 reads 4\nslot 0 old u material 0 level 0 patch 0 version 0 uses 2 kept 0\nslot 1 old u material 0 level 0 patch 1 version 0 uses 2 kept 0\nslot 2 new u material 0 level 0 patch 0 version 0 uses 2 kept 1\nslot 3 new u material 0 level 0 patch 1 version 0 uses 2 kept 1\ntask 0 shift level 0 material 0 patch 0 reads 0 1 writes 2 after\ntask 1 shift level 0 material 0 patch 1 reads 0 1 writes 3 after\nend\n";

#[test]
fn two_patches_are_listed(rt: HostRuntime) -> Result<(), Fail> {
    let answer = call(rt.alloc(), "graph", TWO_PATCHES.as_bytes(), &CALM)?;
    assert_eq!(rt; answer.status, 0);
    assert_eq!(rt; answer.out.as_slice(), TWO_PATCHES_LISTING.as_bytes());
    assert_eq!(rt; answer.err.len(), 0);
    Ok(())
}

#[test]
fn a_fault_leaves_the_front_of_the_listing(rt: HostRuntime) -> Result<(), Fail> {
    let out_fails = Faults {
        source: &[],
        out: &[2],
        err: &[],
    };
    let stopped = call(rt.alloc(), "graph", TWO_PATCHES.as_bytes(), &out_fails)?;
    assert_eq!(rt; stopped.status, 4);
    assert_eq!(rt;
        stopped.out.as_slice(),
        b"graph 1\nplan init tasks 2 slots 2 reads 0\n".as_slice()
    );
    assert_eq!(rt; stopped.err.as_slice(), b"write fault\n".as_slice());
    Ok(())
}
