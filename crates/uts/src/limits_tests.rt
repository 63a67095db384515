//! Each limit is reached by a text that is accepted. Counts are by hand; the texts that go one beyond stand in `refusals_tests`.
use crate::drafts_tests::{
    FINER_LEVEL, is_accepted, many_detailed, many_gathered, many_lines, many_reads, many_slots,
    many_stored, numbered, row_of_patches, wide_windows,
};
use crate::tests::TWO_PATCHES;
use std::test::Fail;

/// The box and the patches of that problem.
const GRID: &str = "box 0 0 0 4 1 1\npatch 0 0 0 2 1 1\npatch 2 0 0 4 1 1\n";

#[test]
fn the_greatest_numbers_are_accepted(rt: HostRuntime) -> Result<(), Fail> {
    let alloc = rt.alloc();
    for (old, new) in [
        ("steps 2", "steps 65535"),
        ("dump 1", "dump 65535"),
        ("ghost 1", "ghost 8"),
        ("materials 1", "materials 8"),
        (GRID, "box 0 0 0 4096 64 1\npatch 0 0 0 4096 64 1\n"),
    ] {
        let text = TWO_PATCHES.replace(alloc, old, new)?;
        assert!(rt; is_accepted(alloc, text.as_str())?, "{new}");
    }
    Ok(())
}

#[test]
fn as_many_lines_as_there_may_be_are_accepted(rt: HostRuntime) -> Result<(), Fail> {
    let alloc = rt.alloc();
    let levels = FINER_LEVEL.repeat(alloc, 3)?;
    let row = row_of_patches(alloc)?;
    let variables = numbered(alloc, 63, "var v", " cell outside 0\n")?;
    let reductions = numbered(alloc, 16, "reduction r", " sum\n")?;
    let tasks = numbered(
        alloc,
        63,
        "task t",
        " levels 0 materials 0\nmodifies u = 0\n",
    )?;
    for (lines, old, behind) in [
        (levels.as_str(), "var u", "var u"),
        (row.as_str(), GRID, ""),
        (variables.as_str(), "init\n", "init\n"),
        (reductions.as_str(), "init\n", "init\n"),
        (tasks.as_str(), "timestep\n", "timestep\n"),
    ] {
        let new = format!(in alloc; "{lines}{behind}")?;
        let text = TWO_PATCHES.replace(alloc, old, new.as_str())?;
        assert!(rt; is_accepted(alloc, text.as_str())?, "{lines}");
    }
    Ok(())
}

#[test]
fn a_task_of_64_lines_is_accepted(rt: HostRuntime) -> Result<(), Fail> {
    let alloc = rt.alloc();
    let text = many_lines(alloc, 62)?;
    assert!(rt; is_accepted(alloc, text.as_str())?);
    Ok(())
}

#[test]
fn the_largest_plans_are_accepted(rt: HostRuntime) -> Result<(), Fail> {
    let alloc = rt.alloc();
    for (text, count) in [
        (many_detailed(alloc)?, "65,536 detailed tasks"),
        (many_slots(alloc)?, "262,144 slots"),
        (many_reads(alloc)?, "2,097,152 reads"),
        (wide_windows(alloc, 1)?, "1,782,272 reads"),
        (many_stored(alloc)?, "16,777,216 numbers"),
        (many_gathered(alloc)?, "2,097,152 numbers gathered"),
    ] {
        assert!(rt; is_accepted(alloc, text.as_str())?, "{count}");
    }
    Ok(())
}
