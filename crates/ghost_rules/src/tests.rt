//! Windows and offsets worked out by hand.
use crate::{Seen, offset_allowed, window};
use problem_types::{Ghost, GhostKind};
use uts_geom::{Centring, Index, Span};

/// A patch from 4 to 8 on each axis.
const PATCH: Span = Span {
    lo: Index { x: 4, y: 4, z: 4 },
    hi: Index { x: 8, y: 8, z: 8 },
};

/// The bounds along x and y of the window of two layers.
fn two_layers(kind: GhostKind, c: Centring) -> [i64; 4] {
    let Span { lo, hi } = window(Ghost { kind, n: 2 }, c, PATCH);
    [lo.x, hi.x, lo.y, hi.y]
}

#[test]
fn windows_of_two_layers(rt: HostRuntime) {
    for (kind, c, want) in [
        (GhostKind::Cells, Centring::Cell, [2, 10, 2, 10]),
        (GhostKind::Cells, Centring::Node, [3, 10, 3, 10]),
        (GhostKind::Cells, Centring::FaceX, [3, 10, 2, 10]),
        (GhostKind::Nodes, Centring::Cell, [2, 10, 2, 10]),
        (GhostKind::Nodes, Centring::Node, [2, 11, 2, 11]),
        (GhostKind::FaceX, Centring::Node, [2, 11, 3, 10]),
        (GhostKind::FaceY, Centring::FaceY, [2, 10, 2, 11]),
    ] {
        assert_eq!(rt; two_layers(kind, c), want, "{kind:?} {c:?}");
    }
}

#[test]
fn windows_without_layers(rt: HostRuntime) {
    let none = Ghost {
        kind: GhostKind::None,
        n: 0,
    };
    assert_eq!(rt; window(none, Centring::Cell, PATCH), PATCH);
    let Span { lo, hi } = window(none, Centring::FaceY, PATCH);
    assert_eq!(rt; [lo.x, hi.x, lo.y, hi.y], [4, 8, 4, 9]);
}

#[test]
fn offsets_lie_in_windows(rt: HostRuntime) {
    let cells = Seen::Ghosted(Ghost {
        kind: GhostKind::Cells,
        n: 1,
    });
    let none = Seen::Ghosted(Ghost {
        kind: GhostKind::None,
        n: 0,
    });
    let faces = Seen::Ghosted(Ghost {
        kind: GhostKind::FaceX,
        n: 1,
    });
    let (cell, face) = (Centring::Cell, Centring::FaceX);
    for (seen, variable, kernel, least, greatest) in [
        (cells, cell, cell, -1, 1),
        (cells, cell, face, -1, 0),
        (cells, face, cell, 0, 1),
        (cells, face, face, 0, 0),
        (none, cell, cell, 0, 0),
        (none, face, cell, 0, 1),
        (none, face, face, 0, 0),
        (faces, cell, cell, -1, 1),
        (faces, face, cell, -1, 2),
        (faces, face, face, -1, 1),
        (Seen::Own, cell, cell, 0, 0),
        (Seen::Own, face, cell, 0, 0),
        (Seen::Own, face, face, 0, 0),
    ] {
        let allowed = [
            offset_allowed(seen, variable, kernel, [least - 1, 0, 0]),
            offset_allowed(seen, variable, kernel, [least, 0, 0]),
            offset_allowed(seen, variable, kernel, [greatest, 0, 0]),
            offset_allowed(seen, variable, kernel, [greatest + 1, 0, 0]),
        ];
        assert_eq!(rt; allowed, [false, true, true, false]);
    }
    // No offset leads from each face of a patch to one of its cells.
    assert!(rt; !offset_allowed(none, cell, face, [0, 0, 0]));
    assert!(rt; !offset_allowed(Seen::Own, cell, face, [0, 0, 0]));
    // An offset beyond the window on another axis.
    assert!(rt; !offset_allowed(cells, cell, cell, [0, 0, 2]));
}
