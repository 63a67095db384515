//! Windows with their numbers counted by hand.
use crate::{NoMemory, Window};
use field_box::Field;
use uts_geom::{Index, Span, contains, meet, volume};

/// The number that a window shows at an x, or -1 where its span does not hold it.
fn seen_at(w: &Window, x: i64) -> i64 {
    let i = Index { x, y: 0, z: 0 };
    if contains(w.span(), i) { w.at(i) } else { -1 }
}

/// A window of two patches of four cells, which hold ones and twos: its numbers from x = 2 on.
const WINDOW: Span = Span {
    lo: Index { x: 2, y: 0, z: 0 },
    hi: Index { x: 10, y: 1, z: 1 },
};

const SPACE: Span = Span {
    lo: Index { x: 0, y: 0, z: 0 },
    hi: Index { x: 8, y: 1, z: 1 },
};

const LEFT: Span = Span {
    lo: Index { x: 0, y: 0, z: 0 },
    hi: Index { x: 4, y: 1, z: 1 },
};

const RIGHT: Span = Span {
    lo: Index { x: 4, y: 0, z: 0 },
    hi: Index { x: 8, y: 1, z: 1 },
};

#[test]
fn two_patches_are_gathered(rt: HostRuntime) -> Result<(), NoMemory> {
    assert_eq!(rt; volume(LEFT), 4);
    assert_eq!(rt; volume(RIGHT), 4);
    let left = Field::filled(rt.alloc(), LEFT, 1)?;
    let right = Field::filled(rt.alloc(), RIGHT, 2)?;
    assert_eq!(rt; volume(meet(WINDOW, SPACE)), 6);
    let mut window = Window::make(rt.alloc(), WINDOW, SPACE, 9)?;
    window.put_part(&left);
    window.put_part(&right);
    for (x, want) in [
        (1, -1),
        (2, 1),
        (3, 1),
        (4, 2),
        (7, 2),
        (8, 9),
        (9, 9),
        (10, -1),
    ] {
        assert_eq!(rt; seen_at(&window, x), want);
    }
    assert!(rt; window.holds(Index { x: 0, y: 0, z: 0 }));
    assert!(rt; !window.holds(Index { x: 8, y: 0, z: 0 }));
    Ok(())
}
