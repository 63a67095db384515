//! Whole calls of the program over sources and sinks in memory. Expected values are counted by hand.
use crate::top::quiet_top;
use std::alloc::Global;
use std::test::Fail;
use uts_io::{MemSink, MemSource};

const GROWING: &str =
    "problem 1\nsteps 2\ndump 1\nghost 1\nmaterials 1\nlevel ratio 1\nbox 0 0 0 4 1 1\npatch 0 0 0 4 1 1\nvar u cell outside 5\ninit\ntask start levels 0 materials 0\ncomputes u = 1\ntimestep\ntask shift levels 0 materials 0\nrequires old u cells 1\ncomputes u = old.u[-1,0,0] + old.u[1,0,0] + 1\nkeep u\nend\n";

const GROWING_DUMP: &str =
    "dump 1\nstep 0\nfield u 0 0 0 0 0 4 1 1\n1 1 1 1\nstep 1\nfield u 0 0 0 0 0 4 1 1\n7 3 3 7\nstep 2\nfield u 0 0 0 0 0 4 1 1\n9 11 11 9\nend\n";

pub const TWO_PATCHES: &str =
    "problem 1\nsteps 2\ndump 1\nghost 1\nmaterials 1\nlevel ratio 1\nbox 0 0 0 4 1 1\npatch 0 0 0 2 1 1\npatch 2 0 0 4 1 1\nvar u cell outside 0\ninit\ntask start levels 0 materials 0\ncomputes u = x * 10\ntimestep\ntask shift levels 0 materials 0\nrequires old u cells 1\ncomputes u = old.u[-1,0,0] + old.u[1,0,0]\nkeep u\nend\n";

// The lines of that problem up to its last kernel.
const CUT_SHORT: &str =
    "problem 1\nsteps 2\ndump 1\nghost 1\nmaterials 1\nlevel ratio 1\nbox 0 0 0 4 1 1\npatch 0 0 0 2 1 1\npatch 2 0 0 4 1 1\nvar u cell outside 0\ninit\ntask start levels 0 materials 0\ncomputes u = x * 10\ntimestep\ntask shift levels 0 materials 0\nrequires old u cells 1\n";

/// The calls of the source and of the two sinks that fail.
#[derive(Clone, Copy)]
pub struct Faults<'a> {
    pub source: &'a [u32],
    pub out: &'a [u32],
    pub err: &'a [u32],
}

pub const CALM: Faults = Faults {
    source: &[],
    out: &[],
    err: &[],
};

/// What a call answered: its status, and what stands on standard output and standard error.
#[derive(Drop)]
pub struct Answer {
    pub status: u8,
    pub out: Vec<u8>,
    pub err: Vec<u8>,
}

pub fn call(alloc: Global, word: &str, text: &[u8], faults: &Faults) -> Result<Answer, Fail> {
    let words = vec![in alloc; word.to_string(alloc)?]?;
    let mut source = MemSource::new(text.to_vec(alloc)?, faults.source.to_vec(alloc)?);
    let mut out = MemSink::new(alloc, 1 << 23, faults.out.to_vec(alloc)?)?;
    let mut err = MemSink::new(alloc, 1 << 10, faults.err.to_vec(alloc)?)?;
    let status = quiet_top(alloc, words.as_slice(), &mut source, &mut out, &mut err);
    Ok(Answer {
        status,
        out: out.bytes().to_vec(alloc)?,
        err: err.bytes().to_vec(alloc)?,
    })
}

/// The dump of a problem of one cell: its steps, what lies outside, its first number and its kernel.
fn one_cell(
    alloc: Global,
    steps: u32,
    ghost_cells: u32,
    outside: i64,
    start: i64,
    kernel: &str,
) -> Result<Answer, Fail> {
    let text = format!(in alloc;
        "problem 1\nsteps {steps}\ndump 1\nghost {ghost_cells}\nmaterials 1\nlevel ratio 1\nbox 0 0 0 1 1 1\npatch 0 0 0 1 1 1\nvar u cell outside {outside}\ninit\ntask start levels 0 materials 0\ncomputes u = {start}\ntimestep\ntask shift levels 0 materials 0\nrequires old u cells {ghost_cells}\ncomputes u = {kernel}\nkeep u\nend\n"
    )?;
    call(alloc, "plain", text.as_bytes(), &CALM)
}

#[test]
fn dump_of_a_growing_sum(rt: HostRuntime) -> Result<(), Fail> {
    let answer = call(rt.alloc(), "plain", GROWING.as_bytes(), &CALM)?;
    assert_eq!(rt; answer.status, 0);
    assert_eq!(rt; answer.out.as_slice(), GROWING_DUMP.as_bytes());
    assert_eq!(rt; answer.err.len(), 0);
    Ok(())
}

#[test]
fn a_text_may_be_laid_out_otherwise(rt: HostRuntime) -> Result<(), Fail> {
    let alloc = rt.alloc();
    let headed = GROWING.replace(alloc, "problem 1\n", "# two steps\n\n\tproblem\t1\n")?;
    let loose = headed
        .as_str()
        .replace(alloc, "steps 2\n", "steps  2  # not many\n \t\n")?;
    let answer = call(alloc, "plain", loose.as_bytes(), &CALM)?;
    assert_eq!(rt; answer.status, 0);
    assert_eq!(rt; answer.out.as_slice(), GROWING_DUMP.as_bytes());
    assert_eq!(rt; answer.err.len(), 0);
    Ok(())
}

#[test]
fn a_negative_zero_is_zero(rt: HostRuntime) -> Result<(), Fail> {
    let alloc = rt.alloc();
    let text = GROWING.replace(alloc, "outside 5", "outside -0")?;
    let answer = call(alloc, "plain", text.as_bytes(), &CALM)?;
    assert_eq!(rt; answer.status, 0);
    assert!(rt; answer.out.ends_with(b"\n4 6 6 4\nend\n"));
    Ok(())
}

#[test]
fn other_texts_are_refused(rt: HostRuntime) -> Result<(), Fail> {
    let alloc = rt.alloc();
    let longest = vec![in alloc; b' '; 1_048_576]?;
    let longer = vec![in alloc; b' '; 1_048_577]?;
    for (text, line) in [
        (b"".as_slice(), "refused: bad text, line 1\n"),
        (CUT_SHORT.as_bytes(), "refused: bad text, line 17\n"),
        (longest.as_slice(), "refused: bad text, line 2\n"),
        (longer.as_slice(), "refused: too long\n"),
    ] {
        let answer = call(alloc, "plain", text, &CALM)?;
        assert_eq!(rt; answer.status, 1);
        assert_eq!(rt; answer.out.len(), 0);
        assert_eq!(rt; answer.err.as_slice(), line.as_bytes());
    }
    Ok(())
}

#[test]
fn a_problem_without_faults_is_accepted(rt: HostRuntime) -> Result<(), Fail> {
    for text in [GROWING, TWO_PATCHES] {
        let answer = call(rt.alloc(), "check", text.as_bytes(), &CALM)?;
        assert_eq!(rt; answer.status, 0);
        assert_eq!(rt; answer.out.as_slice(), b"accepted\n".as_slice());
        assert_eq!(rt; answer.err.len(), 0);
    }
    Ok(())
}

#[test]
fn faults_are_told(rt: HostRuntime) -> Result<(), Fail> {
    let alloc = rt.alloc();
    let out_fails = Faults {
        source: &[],
        out: &[2],
        err: &[],
    };
    let stopped = call(alloc, "plain", GROWING.as_bytes(), &out_fails)?;
    assert_eq!(rt; stopped.status, 4);
    assert_eq!(rt; stopped.out.as_slice(), b"dump 1\nstep 0\n".as_slice());
    assert_eq!(rt; stopped.err.as_slice(), b"write fault\n".as_slice());
    let source_fails = Faults {
        source: &[0],
        out: &[],
        err: &[],
    };
    let unread = call(alloc, "plain", GROWING.as_bytes(), &source_fails)?;
    assert_eq!(rt; unread.status, 3);
    assert_eq!(rt; unread.out.len(), 0);
    assert_eq!(rt; unread.err.as_slice(), b"read fault\n".as_slice());
    Ok(())
}

// Standard error fails once, and would take what comes then.
#[test]
fn a_line_that_failed_is_not_told_again(rt: HostRuntime) -> Result<(), Fail> {
    let err_fails = Faults {
        source: &[],
        out: &[],
        err: &[0],
    };
    for word in ["plain", "check", "no command"] {
        let untold = call(rt.alloc(), word, b"", &err_fails)?;
        assert_eq!(rt; untold.status, 4, "{word}");
        assert_eq!(rt; untold.err.len(), 0, "{word}");
    }
    Ok(())
}

#[test]
fn words_of_no_command(rt: HostRuntime) -> Result<(), Fail> {
    for word in ["", "graphs", "plain ", "--help"] {
        let answer = call(rt.alloc(), word, GROWING.as_bytes(), &CALM)?;
        assert_eq!(rt; answer.status, 2, "{word}");
        assert_eq!(rt;
            answer.err.as_slice(),
            b"usage: plain, check, graph, make N, run W, mill N W\n".as_slice()
        );
    }
    Ok(())
}

#[test]
fn numbers_wrap_at_both_ends(rt: HostRuntime) -> Result<(), Fail> {
    let alloc = rt.alloc();
    let up = one_cell(alloc, 1, 1, 0, i64::MAX, "old.u[0,0,0] + 1")?;
    assert!(rt; up.out.ends_with(b"\n-9223372036854775808\nend\n"));
    let down = one_cell(alloc, 1, 1, i64::MIN, 0, "old.u[1,0,0] + old.u[0,-1,0] + 7")?;
    assert!(rt; down.out.ends_with(b"\n7\nend\n"));
    let outside = one_cell(alloc, 1, 8, i64::MIN, 3, "old.u[0,0,8]")?;
    assert!(rt; outside.out.ends_with(b"\n-9223372036854775808\nend\n"));
    Ok(())
}

#[test]
fn the_most_terms_steps_and_cells(rt: HostRuntime) -> Result<(), Fail> {
    let alloc = rt.alloc();
    let mut kernel = String::from_str(alloc, "2")?;
    for _ in 1..64u32 {
        kernel.push_str(" + 2")?;
    }
    let terms = one_cell(alloc, 1, 1, 0, 0, kernel.as_str())?;
    assert!(rt; terms.out.ends_with(b"\n128\nend\n"));
    let steps = one_cell(alloc, 65_535, 1, 0, 0, "old.u[0,0,0] + 1")?;
    assert!(rt;
        steps
            .out
            .ends_with(b"step 65535\nfield u 0 0 0 0 0 1 1 1\n65535\nend\n")
    );
    let row = GROWING.replace(alloc, "4 1 1", "4096 1 1")?;
    let cells = call(alloc, "plain", row.as_bytes(), &CALM)?;
    assert_eq!(rt; cells.status, 0);
    assert!(rt; cells.out.ends_with(b" 7 7 11 9\nend\n"));
    Ok(())
}
