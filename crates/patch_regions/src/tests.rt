//! A level of two patches, worked out by hand.
ghost use Rattle.std.specs.Prelude.{◌≡◌, IfOk, length};
ghost use Rattle.problem_types.specs.Levels.{IsTiled, KeepsGridLimits};

use crate::{NoMemory, index_space, owned, owner, patch_box, touching};
use problem_types::{BoxLine, Level};
use sqlite_items::Items;
use std::alloc::Global;
use std::test::Fail;
use uts_geom::{Centring, Index, Span};

// Four cells in a row, in two patches of two.
fn halves(alloc: Global) -> Result<Level, NoMemory>
    ensures tiled { IfOk result IsTiled }
    ensures limits { IfOk result KeepsGridLimits }
    ensures patches { IfOk result (λ l. length l.patches ≡ 2) }
{
    let whole = BoxLine {
        line: 2,
        lo: [0, 0, 0],
        hi: [4, 1, 1],
    };
    let left = BoxLine {
        line: 3,
        lo: [0, 0, 0],
        hi: [2, 1, 1],
    };
    let right = BoxLine {
        line: 4,
        lo: [2, 0, 0],
        hi: [4, 1, 1],
    };
    let boxes = Items::from_slice(alloc, &[whole])?;
    let patches = Items::from_slice(alloc, &[left, right])?;
    Ok(Level {
        line: 1,
        ratio: 1,
        boxes,
        patches,
    })
}

fn at(x: i64, y: i64, z: i64) -> Index {
    Index { x, y, z }
}

fn span(lo: Index, hi: Index) -> Span {
    Span { lo, hi }
}

#[test]
fn nodes_belong_to_one_half(rt: HostRuntime) -> Result<(), Fail> {
    let alloc = rt.alloc();
    let level = halves(alloc)?;
    let zero = at(0, 0, 0);
    let node = Centring::Node;
    assert_eq!(rt; index_space(&level, node), span(zero, at(5, 2, 2)));
    assert_eq!(rt; patch_box(&level, 0), span(zero, at(2, 1, 1)));
    assert_eq!(rt; patch_box(&level, 1), span(at(2, 0, 0), at(4, 1, 1)));
    assert_eq!(rt; owned(&level, 0, node), span(zero, at(2, 2, 2)));
    assert_eq!(rt; owned(&level, 1, node), span(at(2, 0, 0), at(5, 2, 2)));
    assert_eq!(rt; owner(&level, node, at(1, 1, 1)), Some(0));
    assert_eq!(rt; owner(&level, node, at(2, 0, 0)), Some(1));
    assert_eq!(rt; owner(&level, node, at(4, 1, 1)), Some(1));
    assert_eq!(rt; owner(&level, node, at(5, 0, 0)), None);
    assert_eq!(rt; owner(&level, node, at(0, -1, 0)), None);
    Ok(())
}

#[test]
fn faces_across_y_end_with_the_box_there(rt: HostRuntime) -> Result<(), Fail> {
    let level = halves(rt.alloc())?;
    let zero = at(0, 0, 0);
    assert_eq!(rt; owned(&level, 0, Centring::FaceY), span(zero, at(2, 2, 1)));
    assert_eq!(rt;
        owned(&level, 1, Centring::Cell),
        span(at(2, 0, 0), at(4, 1, 1))
    );
    assert_eq!(rt; owner(&level, Centring::Cell, at(4, 0, 0)), None);
    Ok(())
}

#[test]
fn a_span_touches_the_patches_that_own_of_it(rt: HostRuntime) -> Result<(), Fail> {
    let alloc = rt.alloc();
    let level = halves(alloc)?;
    let node = Centring::Node;
    let both = touching(alloc, &level, node, span(at(1, 0, 0), at(3, 1, 1)))?;
    assert_eq!(rt; both.as_slice(), [0, 1].as_slice());
    let left = touching(alloc, &level, node, span(at(-3, 0, 0), at(2, 1, 1)))?;
    assert_eq!(rt; left.as_slice(), [0].as_slice());
    let beyond = touching(alloc, &level, node, span(at(5, 0, 0), at(9, 2, 2)))?;
    assert_eq!(rt; beyond.as_slice(), [].as_slice());
    Ok(())
}
