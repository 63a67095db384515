//! Indexes and spans worked out by hand.
use crate::{children, coarse_index, fine_span};
use uts_geom::{Centring, Index, Span};

const PATCH: Span = Span {
    lo: Index { x: -2, y: 0, z: 3 },
    hi: Index { x: 1, y: 2, z: 4 },
};

#[test]
fn indexes_lie_in_those_below_them(rt: HostRuntime) {
    let i = Index { x: -1, y: 7, z: 8 };
    assert_eq!(rt; coarse_index(i, 2), Index { x: -1, y: 3, z: 4 });
    assert_eq!(rt; coarse_index(i, 4), Index { x: -1, y: 1, z: 2 });
}

#[test]
fn faces_have_one_child_along_their_axis(rt: HostRuntime) {
    let Span { lo, hi } = children(PATCH.lo, 4, Centring::FaceX);
    assert_eq!(rt; lo, Index { x: -8, y: 0, z: 12 });
    assert_eq!(rt; hi, Index { x: -7, y: 4, z: 16 });
}

#[test]
fn nodes_at_the_high_end_are_seen(rt: HostRuntime) {
    let Span { lo, hi } = fine_span(PATCH, 2, Centring::Node);
    assert_eq!(rt; lo, Index { x: -4, y: 0, z: 6 });
    assert_eq!(rt; hi, Index { x: 3, y: 5, z: 9 });
}
