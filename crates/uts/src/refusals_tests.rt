//! A smallest text for the words of each refusal of the checker. Lines are counted by hand. `docs/language.md` has the same texts.
use crate::drafts_tests::{
    FINER_LEVEL, is_refused, many_detailed, many_lines, many_reads, many_slots, numbered,
    one_more_gathered, one_more_stored, refined, wide_windows,
};
use crate::tests::TWO_PATCHES;
use std::test::Fail;

#[test]
fn a_changed_line_is_refused(rt: HostRuntime) -> Result<(), Fail> {
    let alloc = rt.alloc();
    for (old, new, words) in [
        ("steps 2", "steps 65536", "too large (steps), line 2"),
        ("dump 1", "dump 65536", "too large (dump), line 3"),
        ("ghost 1", "ghost 9", "too large (ghost), line 4"),
        (
            "materials 1",
            "materials 9",
            "too large (materials), line 5",
        ),
        (
            "box 0 0 0 4 1 1",
            "box 0 0 0 4097 1 1",
            "too large (bounds), line 6",
        ),
        (
            "box 0 0 0 4 1 1",
            "box 0 0 0 4033 65 1",
            "too large (cells), line 6",
        ),
        ("patch 2 0 0 4 1 1", "patch 2 0 0 3 1 1", "bad grid, line 6"),
        ("keep u", "keep v", "unknown name, line 18"),
        ("keep u", "keep u\nkeep u", "twice, line 19"),
        ("cells 1", "cells 2", "ghost too wide, line 16"),
        ("old.u[1,0,0]", "old.u[2,0,0]", "read beyond ghost, line 17"),
        (
            "task shift levels 0",
            "task shift levels 1",
            "missing level, line 15",
        ),
        (
            "requires old u",
            "requires new u",
            "missing compute, line 16",
        ),
        (
            "computes u = x * 10",
            "computes u = x * 10\ncomputes u = 0",
            "double compute, line 14",
        ),
        (
            "init\n",
            "init\ntask early levels 0 materials 0\nmodifies u = 1\n",
            "unordered modify, line 13",
        ),
    ] {
        let text = TWO_PATCHES.replace(alloc, old, new)?;
        assert!(rt; is_refused(alloc, text.as_str(), words)?, "{words}");
    }
    Ok(())
}

#[test]
fn a_line_too_many_is_refused(rt: HostRuntime) -> Result<(), Fail> {
    let alloc = rt.alloc();
    let levels = FINER_LEVEL.repeat(alloc, 4)?;
    let patches = "patch 2 0 0 4 1 1\n".repeat(alloc, 1023)?;
    let variables = numbered(alloc, 64, "var v", " cell outside 0\n")?;
    let reductions = numbered(alloc, 17, "reduction r", " sum\n")?;
    let tasks = numbered(
        alloc,
        64,
        "task t",
        " levels 0 materials 0\nmodifies u = 0\n",
    )?;
    for (lines, before, words) in [
        (levels.as_str(), "var u", "too large (levels), line 19"),
        (patches.as_str(), "patch 2", "too large (patches), line 6"),
        (
            variables.as_str(),
            "init\n",
            "too large (variables), line 74",
        ),
        (
            reductions.as_str(),
            "init\n",
            "too large (reductions), line 27",
        ),
        (tasks.as_str(), "timestep\n", "too large (tasks), line 140"),
    ] {
        let longer = format!(in alloc; "{lines}{before}")?;
        let text = TWO_PATCHES.replace(alloc, before, longer.as_str())?;
        assert!(rt; is_refused(alloc, text.as_str(), words)?, "{words}");
    }
    Ok(())
}

#[test]
fn a_task_of_65_lines_is_refused(rt: HostRuntime) -> Result<(), Fail> {
    let alloc = rt.alloc();
    let text = many_lines(alloc, 63)?;
    assert!(rt; is_refused(alloc, text.as_str(), "too large (lines), line 143")?);
    Ok(())
}

#[test]
fn a_plan_that_is_one_too_large_is_refused(rt: HostRuntime) -> Result<(), Fail> {
    let alloc = rt.alloc();
    let one = "task more levels 1 materials 0\ncomputes v0 = 0\n";
    let reading =
        "task more levels 1 materials 0\ncomputes v0 = 0\ntask last levels 1 materials 0\nrequires new v0 none\ncomputes v1 = 0\n";
    let (detailed, slots, reads) = (
        many_detailed(alloc)?,
        many_slots(alloc)?,
        many_reads(alloc)?,
    );
    for (text, words) in [
        (
            refined(alloc, detailed.as_str(), one)?,
            "too large (detailed), line 1056",
        ),
        (
            refined(alloc, slots.as_str(), one)?,
            "too large (slots), line 1104",
        ),
        (
            refined(alloc, reads.as_str(), reading)?,
            "too large (reads), line 545",
        ),
        (one_more_stored(alloc)?, "too large (stored), line 79"),
        (one_more_gathered(alloc)?, "too large (gathered), line 41"),
        (wide_windows(alloc, 2)?, "too large (reads), line 1051"),
    ] {
        assert!(rt; is_refused(alloc, text.as_str(), words)?, "{words}");
    }
    Ok(())
}
