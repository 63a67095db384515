//! Spans with their indexes counted by hand.
ghost use Rattle.std.specs.Prelude.{◌≡◌};

use crate::{Axis, Centring, Index, Span, contains, meet, offset_in, point_like, rows, volume};
use std::test::Fail;

fn at(x: i64, y: i64, z: i64) -> Index
    ensures { result ≡ record { x = x; y = y; z = z } }
{
    Index { x, y, z }
}

#[test]
fn faces_are_point_like_on_their_axis(rt: HostRuntime) {
    let axes = [Axis::X, Axis::Y, Axis::Z];
    for (centring, want) in [
        (Centring::Cell, [false, false, false]),
        (Centring::Node, [true, true, true]),
        (Centring::FaceX, [true, false, false]),
        (Centring::FaceY, [false, true, false]),
        (Centring::FaceZ, [false, false, true]),
    ] {
        assert_eq!(rt; axes.map(|axis| point_like(centring, axis)), want);
    }
}

/// The span from one corner to another.
fn span(lo: Index, hi: Index) -> Span
    ensures { result ≡ record { lo = lo; hi = hi } }
{
    Span { lo, hi }
}

#[test]
fn places_go_by_x_then_y_then_z(rt: HostRuntime) {
    let s = span(at(-1, 2, 5), at(2, 4, 7));
    assert_eq!(rt; volume(s), 12);
    assert!(rt; contains(s, at(-1, 2, 5)));
    assert!(rt; contains(s, at(1, 3, 6)));
    assert!(rt; !contains(s, at(2, 3, 6)));
    assert!(rt; !contains(s, at(1, 4, 6)));
    assert!(rt; !contains(s, at(1, 3, 7)));
    assert!(rt; !contains(s, at(-2, 3, 6)));
    for (i, want) in [
        (at(-1, 2, 5), 0),
        (at(1, 2, 5), 2),
        (at(-1, 3, 5), 3),
        (at(-1, 2, 6), 6),
        (at(1, 3, 6), 11),
    ] {
        assert!(rt; contains(s, i));
        assert_eq!(rt; offset_in(s, i), want);
    }
}

#[test]
fn spans_meet_in_what_both_hold(rt: HostRuntime) {
    let a = span(at(0, 0, 0), at(4, 4, 4));
    let b = span(at(-1, 2, 3), at(3, 9, 4));
    assert_eq!(rt; meet(a, b), span(at(0, 2, 3), at(3, 4, 4)));
    let beside = span(at(4, 0, 0), at(5, 4, 4));
    assert_eq!(rt; volume(meet(a, beside)), 0);
}

#[test]
fn rows_go_by_y_then_z(rt: HostRuntime) -> Result<(), Fail> {
    let alloc = rt.alloc();
    let walked: Vec<(i64, i64)> = rows(span(at(0, -1, 7), at(2, 1, 9))).collect(alloc)?;
    assert_eq!(rt;
        walked.as_slice(),
        [(-1, 7), (0, 7), (-1, 8), (0, 8)].as_slice()
    );
    for empty in [
        span(at(0, 0, 0), at(0, 2, 2)),
        span(at(0, 0, 0), at(2, 0, 2)),
        span(at(0, 2, 0), at(2, 0, 2)),
    ] {
        assert_eq!(rt; rows(empty).count(), 0);
    }
    Ok(())
}
