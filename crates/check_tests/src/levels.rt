//! Levels drawn by hand.
use grid_levels::{BadGrid, check_level, is_within_limits};
use problem_types::{BoxLine, Level, NoMemory, Num, Problem};
use sqlite_items::Items;
use std::alloc::Global;
use std::test::Fail;

fn cells(lo: [u64; 3], hi: [u64; 3]) -> BoxLine {
    BoxLine { line: 9, lo, hi }
}

fn cube(low: u64, high: u64) -> BoxLine {
    cells([low, low, low], [high, high, high])
}

/// A level on this line.
fn level(
    alloc: Global,
    line: u32,
    ratio: u64,
    outer: BoxLine,
    patches: &[BoxLine],
) -> Result<Level, NoMemory> {
    Ok(Level {
        line,
        ratio,
        boxes: Items::from_slice(alloc, &[outer])?,
        patches: Items::from_slice(alloc, patches)?,
    })
}

fn problem(alloc: Global) -> Problem {
    let num = Num { line: 1, value: 1 };
    Problem {
        names: Items::new(alloc),
        version: num,
        steps: num,
        dump: num,
        ghost_limit: num,
        materials: num,
        levels: Items::new(alloc),
        vars: Items::new(alloc),
        reductions: Items::new(alloc),
        init_line: 10,
        init: Items::new(alloc),
        timestep_line: 11,
        timestep: Items::new(alloc),
        keeps: Items::new(alloc),
        end_line: 12,
    }
}

/// The line that is blamed, `None` where the level is good.
fn blamed(p: &Problem, level: usize) -> Result<Option<u32>, Fail> {
    if !is_within_limits(p, level) {
        return Err("beyond the limits".into());
    }
    match check_level(p, level) {
        Ok(()) => Ok(None),
        Err(BadGrid { line }) => Ok(Some(line)),
    }
}

/// What is said of one level with ratio 1, on line 6.
fn said(alloc: Global, outer: BoxLine, patches: &[BoxLine]) -> Result<Option<u32>, Fail> {
    let mut p = problem(alloc);
    p.levels.push(level(alloc, 6, 1, outer, patches)?)?;
    blamed(&p, 0)
}

/// What is said of a level, on line 8, that is one patch, above a coarser one that is one patch too.
fn said_refined(
    alloc: Global,
    coarser: BoxLine,
    ratio: u64,
    outer: BoxLine,
) -> Result<Option<u32>, Fail> {
    let mut p = problem(alloc);
    p.levels.push(level(alloc, 6, 1, coarser, &[coarser])?)?;
    p.levels.push(level(alloc, 8, ratio, outer, &[outer])?)?;
    blamed(&p, 1)
}

#[test]
fn two_patches_tile_a_box(rt: HostRuntime) -> Result<(), Fail> {
    let halves = [cells([0, 0, 0], [4, 2, 4]), cells([0, 2, 0], [4, 4, 4])];
    assert_eq!(rt; said(rt.alloc(), cube(0, 4), &halves)?, None);
    Ok(())
}

#[test]
fn patches_share_no_cell(rt: HostRuntime) -> Result<(), Fail> {
    let alloc = rt.alloc();
    // Three cells and three, as many as the box has, two of them twice.
    let row = cells([0, 0, 0], [6, 1, 1]);
    let twice = [cells([0, 0, 0], [3, 1, 1]), cells([1, 0, 0], [4, 1, 1])];
    assert_eq!(rt; said(alloc, row, &twice)?, Some(6));
    // They share the cell (1, 1, 1) alone.
    let corner = [cube(0, 2), cube(1, 3)];
    assert_eq!(rt; said(alloc, cube(0, 3), &corner)?, Some(6));
    assert_eq!(rt;
        said(alloc, cube(0, 3), &[cube(0, 3), cube(2, 3)])?,
        Some(6)
    );
    Ok(())
}

#[test]
fn each_cell_lies_in_a_patch(rt: HostRuntime) -> Result<(), Fail> {
    let alloc = rt.alloc();
    let parts = [
        cells([0, 0, 0], [2, 2, 1]),
        cells([0, 0, 1], [2, 1, 2]),
        cells([0, 1, 1], [1, 2, 2]),
        cells([1, 1, 1], [2, 2, 2]),
    ];
    assert_eq!(rt; said(alloc, cube(0, 2), &parts)?, None);
    assert_eq!(rt; said(alloc, cube(0, 2), &parts[..3])?, Some(6));
    assert_eq!(rt; said(alloc, cube(0, 2), &[])?, Some(6));
    Ok(())
}

#[test]
fn patches_lie_in_the_box(rt: HostRuntime) -> Result<(), Fail> {
    let alloc = rt.alloc();
    assert_eq!(rt; said(alloc, cube(2, 4), &[cube(2, 4)])?, None);
    for axis in 0..3 {
        let mut low = cube(2, 4);
        low.lo[axis] = 1;
        assert_eq!(rt; said(alloc, cube(2, 4), &[low])?, Some(6));
        let mut high = cube(2, 4);
        high.hi[axis] = 5;
        assert_eq!(rt; said(alloc, cube(2, 4), &[high])?, Some(6));
        let mut none = cube(2, 4);
        none.hi[axis] = 2;
        assert_eq!(rt; said(alloc, none, &[none])?, Some(6));
        assert_eq!(rt; said(alloc, cube(2, 4), &[cube(2, 4), none])?, Some(6));
    }
    Ok(())
}

#[test]
fn ratios_are_2_or_4(rt: HostRuntime) -> Result<(), Fail> {
    let alloc = rt.alloc();
    for (ratio, want) in [
        (0, Some(8)),
        (1, Some(8)),
        (2, None),
        (3, Some(8)),
        (4, None),
        (6, Some(8)),
    ] {
        assert_eq!(rt; said_refined(alloc, cube(0, 12), ratio, cube(0, 12))?, want);
    }
    let mut p = problem(alloc);
    p.levels
        .push(level(alloc, 6, 2, cube(0, 4), &[cube(0, 4)])?)?;
    assert_eq!(rt; blamed(&p, 0)?, Some(6));
    Ok(())
}

#[test]
fn a_refined_box_lies_in_the_coarser_one(rt: HostRuntime) -> Result<(), Fail> {
    let alloc = rt.alloc();
    let coarser = cube(2, 6);
    assert_eq!(rt; said_refined(alloc, coarser, 2, cube(4, 12))?, None);
    for axis in 0..3 {
        let mut low = cube(4, 12);
        low.lo[axis] = 2;
        assert_eq!(rt; said_refined(alloc, coarser, 2, low)?, Some(8));
        let mut high = cube(4, 12);
        high.hi[axis] = 14;
        assert_eq!(rt; said_refined(alloc, coarser, 2, high)?, Some(8));
        let mut odd = cube(4, 12);
        odd.hi[axis] = 11;
        assert_eq!(rt; said_refined(alloc, coarser, 2, odd)?, Some(8));
    }
    Ok(())
}

#[test]
fn bounds_of_patches_are_multiples(rt: HostRuntime) -> Result<(), Fail> {
    let alloc = rt.alloc();
    for (middle, want) in [(2, None), (3, Some(8)), (4, None)] {
        let parts = [
            cells([0, 0, 0], [8, 8, middle]),
            cells([0, 0, middle], [8, 8, 8]),
        ];
        let mut p = problem(alloc);
        p.levels
            .push(level(alloc, 6, 1, cube(0, 4), &[cube(0, 4)])?)?;
        p.levels.push(level(alloc, 8, 2, cube(0, 8), &parts)?)?;
        assert_eq!(rt; blamed(&p, 1)?, want);
    }
    Ok(())
}
