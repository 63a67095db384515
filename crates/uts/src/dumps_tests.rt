//! Dumps of whole problems by `plain`. Their numbers are worked out by hand.
use crate::tests::{Answer, CALM, Faults, TWO_PATCHES, call};
use std::alloc::Global;
use std::test::Fail;

const TWO_PATCHES_DUMP: &str =
    "dump 1\nstep 0\nfield u 0 0 0 0 0 4 1 1\n0 10 20 30\nstep 1\nfield u 0 0 0 0 0 4 1 1\n10 20 40 20\nstep 2\nfield u 0 0 0 0 0 4 1 1\n20 50 40 40\nend\n";

const NODE_DIFFERENCE: &str =
    "problem 1\nsteps 0\ndump 1\nghost 1\nmaterials 1\nlevel ratio 1\nbox 0 0 0 4 1 1\npatch 0 0 0 2 1 1\npatch 2 0 0 4 1 1\nvar n node outside 0\nvar u cell outside 0\ninit\ntask a levels 0 materials 0\ncomputes n = x\ntask b levels 0 materials 0\nrequires new n none\ncomputes u = new.n[1,0,0] - new.n[0,0,0]\ntimestep\ntask c levels 0 materials 0\ncomputes u = 0\nkeep u\nend\n";

const NODE_DIFFERENCE_DUMP: &str = "dump 1\nstep 0\nfield u 0 0 0 0 0 4 1 1\n1 1 1 1\nend\n";

const MODIFY_BETWEEN_READERS: &str =
    "problem 1\nsteps 0\ndump 1\nghost 1\nmaterials 1\nlevel ratio 1\nbox 0 0 0 4 1 1\npatch 0 0 0 2 1 1\npatch 2 0 0 4 1 1\nvar u cell outside 0\nvar v cell outside 0\nvar w cell outside 0\ninit\ntask a levels 0 materials 0\ncomputes u = x\ntask b levels 0 materials 0\nrequires new u cells 1\ncomputes v = new.u[1,0,0]\ntask c levels 0 materials 0\nrequires new u none\nmodifies u = new.u[0,0,0] + 100\ntask d levels 0 materials 0\nrequires new u cells 1\ncomputes w = new.u[1,0,0]\ntimestep\ntask e levels 0 materials 0\ncomputes u = 0\ncomputes v = 0\ncomputes w = 0\nkeep u\nkeep v\nkeep w\nend\n";

const MODIFY_BETWEEN_READERS_DUMP: &str =
    "dump 1\nstep 0\nfield u 0 0 0 0 0 4 1 1\n100 101 102 103\nfield v 0 0 0 0 0 4 1 1\n1 2 3 0\nfield w 0 0 0 0 0 4 1 1\n101 102 103 0\nend\n";

const FINE_SUMS: &str =
    "problem 1\nsteps 0\ndump 1\nghost 0\nmaterials 1\nlevel ratio 1\nbox 0 0 0 2 1 1\npatch 0 0 0 2 1 1\nlevel ratio 2\nbox 0 0 0 2 2 2\npatch 0 0 0 2 2 2\nvar u cell outside 0\nvar v cell outside 0\nvar w cell outside 0\ninit\ntask a levels 1 materials 0\ncomputes u = 1\ntask b levels 0 materials 0\ncomputes u = 7\ntask c levels 0 materials 0\nrequires new fine u\ncomputes v = new.fine_sum.u\ncomputes w = new.fine_count.u\ntimestep\ntask e levels 0 materials 0\ncomputes u = 0\ncomputes v = 0\ncomputes w = 0\nkeep u\nkeep v\nkeep w\nend\n";

const FINE_SUMS_DUMP: &str =
    "dump 1\nstep 0\nfield u 0 0 0 0 0 2 1 1\n7 7\nfield u 0 1 0 0 0 2 2 2\n1 1\n1 1\n1 1\n1 1\nfield v 0 0 0 0 0 2 1 1\n8 0\nfield w 0 0 0 0 0 2 1 1\n8 0\nend\n";

const REDUCTIONS_BY_LEVEL: &str =
    "problem 1\nsteps 1\ndump 1\nghost 0\nmaterials 2\nlevel ratio 1\nbox 0 0 0 2 1 1\npatch 0 0 0 2 1 1\nlevel ratio 2\nbox 0 0 0 2 2 2\npatch 0 0 0 2 2 2\nvar u cell outside 0\nreduction low min\ninit\ntask a levels 0 1 materials 0 1\ncomputes u = x + 10 * material + 100 * level\ntask b levels 0 1 materials 0 1\nrequires new u none\nreduces low cell = 5 - new.u[0,0,0]\ntimestep\ntask c levels 0 materials 0\nrequires old low\ncomputes u = old.low\nreduces low cell = x\nkeep u\nkeep low\nend\n";

const REDUCTIONS_BY_LEVEL_DUMP: &str =
    "dump 1\nstep 0\nfield u 0 0 0 0 0 2 1 1\n0 1\nfield u 0 1 0 0 0 2 2 2\n100 101\n100 101\n100 101\n100 101\nfield u 1 0 0 0 0 2 1 1\n10 11\nfield u 1 1 0 0 0 2 2 2\n110 111\n110 111\n110 111\n110 111\nnumber low -106\nstep 1\nfield u 0 0 0 0 0 2 1 1\n-106 -106\nnumber low 0\nend\n";

const CENTRINGS: &str =
    "problem 1\nsteps 0\ndump 1\nghost 0\nmaterials 1\nlevel ratio 1\nbox 0 0 0 2 1 1\npatch 0 0 0 2 1 1\nvar c cell outside 0\nvar n node outside 0\nvar fx facex outside 0\nvar fy facey outside 0\nvar fz facez outside 0\ninit\ntask a levels 0 materials 0\ncomputes c = x + 10 * y + 100 * z\ncomputes n = x + 10 * y + 100 * z\ncomputes fx = x + 10 * y + 100 * z\ncomputes fy = x + 10 * y + 100 * z\ncomputes fz = x + 10 * y + 100 * z\ntimestep\ntask b levels 0 materials 0\ncomputes c = 0\ncomputes n = 0\ncomputes fx = 0\ncomputes fy = 0\ncomputes fz = 0\nkeep c\nkeep n\nkeep fx\nkeep fy\nkeep fz\nend\n";

const CENTRINGS_DUMP: &str =
    "dump 1\nstep 0\nfield c 0 0 0 0 0 2 1 1\n0 1\nfield n 0 0 0 0 0 3 2 2\n0 1 2\n10 11 12\n100 101 102\n110 111 112\nfield fx 0 0 0 0 0 3 1 1\n0 1 2\nfield fy 0 0 0 0 0 2 2 1\n0 1\n10 11\nfield fz 0 0 0 0 0 2 1 2\n0 1\n100 101\nend\n";

const COARSE_READ: &str =
    "problem 1\nsteps 0\ndump 1\nghost 1\nmaterials 1\nlevel ratio 1\nbox 0 0 0 4 1 1\npatch 0 0 0 4 1 1\nlevel ratio 2\nbox 0 0 0 4 2 2\npatch 0 0 0 4 2 2\nvar u cell outside 5\nvar v cell outside 0\ninit\ntask a levels 0 materials 0\ncomputes u = x\ntask b levels 1 materials 0\nrequires new coarse u cells 1\ncomputes v = new.coarse.u[-1,0,0]\ntimestep\ntask c levels 0 materials 0\ncomputes u = 0\ncomputes v = 0\nkeep v\nend\n";

const COARSE_READ_DUMP: &str =
    "dump 1\nstep 0\nfield v 0 1 0 0 0 4 2 2\n5 5 0 0\n5 5 0 0\n5 5 0 0\n5 5 0 0\nend\n";

// The least and the greatest of the children, and of none.
const FINE_ENDS_DUMP: &str =
    "dump 1\nstep 0\nfield u 0 0 0 0 0 2 1 1\n7 7\nfield u 0 1 0 0 0 2 2 2\n1 1\n1 1\n1 1\n1 1\nfield v 0 0 0 0 0 2 1 1\n1 9223372036854775807\nfield w 0 0 0 0 0 2 1 1\n1 -9223372036854775808\nend\n";

fn dump_of(alloc: Global, text: &str) -> Result<Answer, Fail> {
    call(alloc, "plain", text.as_bytes(), &CALM)
}

#[test]
fn dumps_of_worked_problems(rt: HostRuntime) -> Result<(), Fail> {
    for (text, dump) in [
        (TWO_PATCHES, TWO_PATCHES_DUMP),
        (NODE_DIFFERENCE, NODE_DIFFERENCE_DUMP),
        (MODIFY_BETWEEN_READERS, MODIFY_BETWEEN_READERS_DUMP),
        (FINE_SUMS, FINE_SUMS_DUMP),
        (REDUCTIONS_BY_LEVEL, REDUCTIONS_BY_LEVEL_DUMP),
        (CENTRINGS, CENTRINGS_DUMP),
        (COARSE_READ, COARSE_READ_DUMP),
    ] {
        let answer = dump_of(rt.alloc(), text)?;
        assert_eq!(rt; answer.status, 0);
        assert_eq!(rt; answer.out.as_slice(), dump.as_bytes());
        assert_eq!(rt; answer.err.len(), 0);
    }
    Ok(())
}

#[test]
fn the_least_and_the_greatest_of_children(rt: HostRuntime) -> Result<(), Fail> {
    let alloc = rt.alloc();
    let least = FINE_SUMS.replace(alloc, "fine_sum", "fine_min")?;
    let both = least.as_str().replace(alloc, "fine_count", "fine_max")?;
    let answer = dump_of(alloc, both.as_str())?;
    assert_eq!(rt; answer.out.as_slice(), FINE_ENDS_DUMP.as_bytes());
    Ok(())
}

// The dump of two patches, with one part of its text replaced.
fn two_patches_with(alloc: Global, old: &str, new: &str) -> Result<Answer, Fail> {
    let text = TWO_PATCHES.replace(alloc, old, new)?;
    dump_of(alloc, text.as_str())
}

#[test]
fn which_steps_are_shown(rt: HostRuntime) -> Result<(), Fail> {
    let alloc = rt.alloc();
    let first = two_patches_with(alloc, "steps 2", "steps 0")?;
    assert_eq!(rt;
        first.out.as_slice(),
        b"dump 1\nstep 0\nfield u 0 0 0 0 0 4 1 1\n0 10 20 30\nend\n".as_slice()
    );
    let last = two_patches_with(alloc, "steps 2\ndump 1", "steps 3\ndump 2")?;
    assert_eq!(rt;
        last.out.as_slice(),
        b"dump 1\nstep 0\nfield u 0 0 0 0 0 4 1 1\n0 10 20 30\nstep 2\nfield u 0 0 0 0 0 4 1 1\n20 50 40 40\nstep 3\nfield u 0 0 0 0 0 4 1 1\n50 60 90 40\nend\n".as_slice()
    );
    Ok(())
}

#[test]
fn what_changes_no_number(rt: HostRuntime) -> Result<(), Fail> {
    let alloc = rt.alloc();
    let one_patch = "patch 0 0 0 4 1 1\nvar";
    let unused = "var w cell outside 0\ninit\ntask start levels 0 materials 0\ncomputes w = 1";
    for (old, new) in [
        ("patch 0 0 0 2 1 1\npatch 2 0 0 4 1 1\nvar", one_patch),
        ("init\ntask start levels 0 materials 0", unused),
    ] {
        let answer = two_patches_with(alloc, old, new)?;
        assert_eq!(rt; answer.status, 0);
        assert_eq!(rt; answer.out.as_slice(), TWO_PATCHES_DUMP.as_bytes());
    }
    let wide = TWO_PATCHES.replace(alloc, "ghost 1", "ghost 2")?;
    let wider = wide.as_str().replace(alloc, "cells 1", "cells 2")?;
    let answer = dump_of(alloc, wider.as_str())?;
    assert_eq!(rt; answer.out.as_slice(), TWO_PATCHES_DUMP.as_bytes());
    Ok(())
}

#[test]
fn kernels_at_the_ends_of_the_numbers(rt: HostRuntime) -> Result<(), Fail> {
    let alloc = rt.alloc();
    for (kernel, number) in [
        ("9223372036854775807 + 1", "-9223372036854775808"),
        ("(-9223372036854775807 - 1) / -1", "-9223372036854775808"),
        ("(-9223372036854775807 - 1) % -1", "0"),
        ("7 / 0", "0"),
        ("7 % 0", "0"),
        ("-7 / 2", "-3"),
        ("-7 % 2", "-1"),
        ("2 < 3", "1"),
        ("1 - 2 - 3", "-4"),
        ("select(0, 5, 6)", "6"),
    ] {
        let text = format!(in alloc;
            "problem 1\nsteps 0\ndump 1\nghost 0\nmaterials 1\nlevel ratio 1\nbox 0 0 0 1 1 1\npatch 0 0 0 1 1 1\nvar u cell outside 0\ninit\ntask a levels 0 materials 0\ncomputes u = {kernel}\ntimestep\ntask b levels 0 materials 0\ncomputes u = 0\nkeep u\nend\n"
        )?;
        let answer = dump_of(alloc, text.as_str())?;
        let want = format!(in alloc; "dump 1\nstep 0\nfield u 0 0 0 0 0 1 1 1\n{number}\nend\n")?;
        assert_eq!(rt; answer.out.as_slice(), want.as_bytes());
    }
    Ok(())
}

#[test]
fn a_fault_leaves_the_front_of_the_dump(rt: HostRuntime) -> Result<(), Fail> {
    let alloc = rt.alloc();
    let out_fails = Faults {
        source: &[],
        out: &[2],
        err: &[],
    };
    let stopped = call(alloc, "plain", TWO_PATCHES.as_bytes(), &out_fails)?;
    assert_eq!(rt; stopped.status, 4);
    assert_eq!(rt; stopped.out.as_slice(), b"dump 1\nstep 0\n".as_slice());
    assert_eq!(rt; stopped.err.as_slice(), b"write fault\n".as_slice());
    Ok(())
}
