//! Whole texts, with their lines and names counted by hand.
use problem_file::{ParseFault, parse};
use problem_types::{Expr, Fold, GhostKind, What};
use std::alloc::{AllocError, Global};
use std::test::Fail;

const TWO_PATCHES: &str =
    "problem 1\nsteps 2\ndump 1\nghost 1\nmaterials 1\nlevel ratio 1\nbox 0 0 0 4 1 1\npatch 0 0 0 2 1 1\npatch 2 0 0 4 1 1\nvar u cell outside 0\ninit\ntask start levels 0 materials 0\ncomputes u = x * 10\ntimestep\ntask shift levels 0 materials 0\nrequires old u cells 1\ncomputes u = old.u[-1,0,0] + old.u[1,0,0]\nkeep u\nend\n";

/// The tests' texts are shorter.
const LONGEST: usize = 1 << 20;

/// No text has so many lines.
const NO_MEMORY: u32 = 9999;

/// The first bad line of a text, 0 where it spells a problem.
fn bad_line(alloc: Global, text: &[u8]) -> u32 {
    if text.len() >= LONGEST {
        return NO_MEMORY;
    }
    match parse(alloc, text) {
        Ok(_) => 0,
        Err(ParseFault::BadText { line }) => line,
        Err(ParseFault::NoMemory) => NO_MEMORY,
    }
}

/// The same of the text of two patches with each `from` in it changed.
fn bad_line_with(alloc: Global, from: &str, to: &str) -> Result<u32, AllocError> {
    let text = TWO_PATCHES.replace(alloc, from, to)?;
    Ok(bad_line(alloc, text.as_bytes()))
}

/// So many pairs of parentheses around a number.
fn parentheses(alloc: Global, pairs: u32) -> Result<String, AllocError> {
    let mut text = String::new(alloc);
    for _ in 0..pairs {
        text.push_str("(")?;
    }
    text.push_str("7")?;
    for _ in 0..pairs {
        text.push_str(")")?;
    }
    Ok(text)
}

#[test]
fn tells_where_a_text_ends_too_early(rt: HostRuntime) -> Result<(), Fail> {
    let alloc = rt.alloc();
    assert_eq!(rt; bad_line(alloc, b""), 1);
    assert_eq!(rt; bad_line(alloc, b"\n"), 2);
    assert_eq!(rt; bad_line(alloc, b"# alone"), 2);
    assert_eq!(rt; bad_line(alloc, b"problem 1"), 2);
    let (front, _) = TWO_PATCHES.split_once("computes u = old").ok_or("a line")?;
    assert_eq!(rt; bad_line(alloc, front.as_bytes()), 17);
    Ok(())
}

#[test]
fn takes_other_spellings(rt: HostRuntime) -> Result<(), Fail> {
    let alloc = rt.alloc();
    let deep = parentheses(alloc, 64)?;
    for (from, to) in [
        ("problem", "problem"),
        (" ", "\t"),
        (" ", "  "),
        ("\n", "\r\n"),
        ("\n", "\n\n# a comment\n"),
        ("end\n", "end"),
        ("end\n", "end\n\n# the end"),
        ("outside 0", "outside -9223372036854775808"),
        ("outside 0", "outside -0"),
        ("dump 1", "dump 1#x"),
        ("levels 0 materials", "levels 0materials"),
        ("x * 10", "min(x,y)*10"),
        ("x * 10", deep.as_str()),
        ("[-1,0,0]", "[- 1, 0, 0]"),
    ] {
        assert_eq!(rt; bad_line_with(alloc, from, to)?, 0, "{to}");
    }
    Ok(())
}

#[test]
fn a_comment_may_hold_any_bytes(rt: HostRuntime) -> Result<(), Fail> {
    let alloc = rt.alloc();
    let mut text = Vec::new(alloc);
    text.push(b'#')?;
    for byte in 0..=255u8 {
        if byte != b'\n' {
            text.push(byte)?;
        }
    }
    text.push(b'\n')?;
    text.extend_from_slice(TWO_PATCHES.as_bytes())?;
    assert_eq!(rt; bad_line(alloc, &text), 0);
    Ok(())
}

#[test]
fn tells_the_first_bad_line(rt: HostRuntime) -> Result<(), Fail> {
    let alloc = rt.alloc();
    let too_deep = parentheses(alloc, 65)?;
    for (from, to, line) in [
        ("dump 1", "dump 0", 3),
        ("ghost 1\n", "", 4),
        ("box", "patch", 7),
        ("outside 0", "outside 9223372036854775808", 10),
        ("var u", "var aaaaaaaaaaaaaaaaaaaaaaaaaaaaaaaaa", 10),
        ("var u", "var fine_sum", 10),
        ("levels 0", "levels 0 0", 12),
        ("x * 10", "x * 010", 13),
        ("x * 10", "9223372036854775808", 13),
        ("x * 10", "x < = 10", 13),
        ("x * 10", too_deep.as_str(), 13),
        ("requires old u cells 1\n", "requires old u cells 0\n", 16),
        ("keep u\n", "requires old u cells 1\n", 18),
        ("end\n", "end\nend\n", 20),
        ("end\n", "end $\n", 19),
    ] {
        assert_eq!(rt; bad_line_with(alloc, from, to)?, line, "{to}");
    }
    let two = TWO_PATCHES.replace(alloc, "steps 2", "steps 70000")?;
    let two = two.as_str().replace(alloc, "end\n", "end $\n")?;
    assert_eq!(rt; bad_line(alloc, two.as_bytes()), 19);
    Ok(())
}

#[test]
fn most_words_may_be_names(rt: HostRuntime) -> Result<(), Fail> {
    let alloc = rt.alloc();
    for name in [
        "x",
        "level",
        "end",
        "old",
        "min",
        "none",
        "cells",
        "a_2",
        "aaaaaaaaaaaaaaaaaaaaaaaaaaaaaaaa",
    ] {
        let text = TWO_PATCHES.replace(alloc, " u ", format!(in alloc; " {name} ")?.as_str())?;
        let text = text
            .as_str()
            .replace(alloc, ".u[", format!(in alloc; ".{name}[")?.as_str())?;
        let text = text.as_str().replace(
            alloc,
            "keep u",
            format!(in alloc; "keep {name}")?.as_str(),
        )?;
        assert_eq!(rt; bad_line(alloc, text.as_bytes()), 0, "{name}");
    }
    Ok(())
}

#[test]
fn gives_the_problem(rt: HostRuntime) -> Result<(), Fail> {
    let alloc = rt.alloc();
    let text = TWO_PATCHES.replace(alloc, "init\n", "\nreduction most max\ninit\n")?;
    if text.len() >= LONGEST {
        return Ok(());
    }
    let p = parse(alloc, text.as_bytes())?;
    let names: Vec<&[u8]> = p.names.as_slice().iter().map(|n| n.bytes()).collect(alloc)?;
    assert_eq!(rt;
        names.as_slice(),
        [b"u".as_slice(), b"most", b"start", b"shift"].as_slice()
    );
    assert_eq!(rt; p.steps.value, 2);
    let level = p.levels.get(0).ok_or("a level")?;
    let patches: Vec<(u32, [u64; 3])> = level
        .patches
        .as_slice()
        .iter()
        .map(|b| (b.line, b.lo))
        .collect(alloc)?;
    assert_eq!(rt;
        patches.as_slice(),
        [(8, [0, 0, 0]), (9, [2, 0, 0])].as_slice()
    );
    let most = p.reductions.get(0).ok_or("a reduction")?;
    assert_eq!(rt; (most.line, most.name, most.fold), (12, 1, Fold::Max));
    let shift = p.timestep.get(0).ok_or("a task")?;
    assert_eq!(rt; (shift.line, shift.name), (17, 3));
    let require = shift.requirements.get(0).ok_or("a requirement")?;
    assert!(rt;
        matches!(require.what, What::Same { var: 0, layers } if layers.kind == GhostKind::Cells && layers.n == 1)
    );
    let write = shift.writes.get(0).ok_or("a write")?;
    assert!(rt; matches!(write.expr, Expr::Binary(_, _, _)));
    assert_eq!(rt; (p.end_line, p.keeps.len()), (21, 1));
    Ok(())
}
