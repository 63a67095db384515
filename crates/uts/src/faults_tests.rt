//! Which fault of several is told, on which line. Lines are counted by hand.
use crate::drafts_tests::{is_accepted, is_refused};
use crate::tests::TWO_PATCHES;
use std::test::Fail;

const NODES: &str =
    "problem 1\nsteps 0\ndump 1\nghost 1\nmaterials 1\nlevel ratio 1\nbox 0 0 0 4 1 1\npatch 0 0 0 2 1 1\npatch 2 0 0 4 1 1\nvar n node outside 0\nvar u cell outside 0\ninit\ntask a levels 0 materials 0\ncomputes n = x\ntask b levels 0 materials 0\nrequires new n none\ncomputes u = new.n[1,0,0] - new.n[0,0,0]\ntimestep\ntask c levels 0 materials 0\ncomputes u = 0\nkeep u\nend\n";

const MODIFIED: &str =
    "problem 1\nsteps 0\ndump 1\nghost 1\nmaterials 1\nlevel ratio 1\nbox 0 0 0 4 1 1\npatch 0 0 0 2 1 1\npatch 2 0 0 4 1 1\nvar u cell outside 0\nvar v cell outside 0\nvar w cell outside 0\ninit\ntask a levels 0 materials 0\ncomputes u = x\ntask b levels 0 materials 0\nrequires new u cells 1\ncomputes v = new.u[1,0,0]\ntask c levels 0 materials 0\nrequires new u none\nmodifies u = new.u[0,0,0] + 100\ntask d levels 0 materials 0\nrequires new u cells 1\ncomputes w = new.u[1,0,0]\ntimestep\ntask e levels 0 materials 0\ncomputes u = 0\ncomputes v = 0\ncomputes w = 0\nkeep u\nkeep v\nkeep w\nend\n";

const REFINED: &str =
    "problem 1\nsteps 0\ndump 1\nghost 0\nmaterials 1\nlevel ratio 1\nbox 0 0 0 2 1 1\npatch 0 0 0 2 1 1\nlevel ratio 2\nbox 0 0 0 2 2 2\npatch 0 0 0 2 2 2\nvar u cell outside 0\nvar v cell outside 0\nvar w cell outside 0\ninit\ntask a levels 1 materials 0\ncomputes u = 1\ntask b levels 0 materials 0\ncomputes u = 7\ntask c levels 0 materials 0\nrequires new fine u\ncomputes v = new.fine_sum.u\ncomputes w = new.fine_count.u\ntimestep\ntask e levels 0 materials 0\ncomputes u = 0\ncomputes v = 0\ncomputes w = 0\nkeep u\nkeep v\nkeep w\nend\n";

/// A task that reads both the old and the new values of what it modifies.
const BOTH_STORES: &str =
    "task again levels 0 materials 0\nrequires old u cells 1\nrequires new u none\nmodifies u = new.u[0,0,0] + old.u[1,0,0]\nkeep u\n";

#[test]
fn texts_without_faults_are_accepted(rt: HostRuntime) -> Result<(), Fail> {
    let alloc = rt.alloc();
    for text in [NODES, MODIFIED, REFINED] {
        assert!(rt; is_accepted(alloc, text)?);
    }
    for (old, new) in [
        ("keep u\n", BOTH_STORES),
        (
            "patch 2 0 0 4 1 1\n",
            "patch 2 0 0 3 1 1\npatch 3 0 0 4 1 1\n",
        ),
    ] {
        let text = TWO_PATCHES.replace(alloc, old, new)?;
        assert!(rt; is_accepted(alloc, text.as_str())?, "{new}");
    }
    Ok(())
}

#[test]
fn the_first_fault_is_told(rt: HostRuntime) -> Result<(), Fail> {
    let alloc = rt.alloc();
    for (old, new, words) in [
        ("old u cells 1", "old w cells 2", "unknown name, line 16"),
        (
            "requires old u cells 1",
            "requires old u cells 1\nrequires old u cells 2",
            "twice, line 17",
        ),
        ("old u cells 1", "new u cells 2", "ghost too wide, line 16"),
        (
            "old u cells 1",
            "new coarse u cells 1",
            "missing level, line 16",
        ),
        (
            "shift levels 0 materials 0",
            "shift levels 1 materials 1",
            "unknown name, line 15",
        ),
        ("keep u", "keep v\nkeep v", "unknown name, line 18"),
        (
            "steps 2\ndump 1",
            "steps 2\ndump 65536",
            "too large (dump), line 3",
        ),
        (
            "keep u\n",
            "task again levels 0 materials 0\nrequires new u none\nrequires new u none\nmodifies u = 0\nkeep u\n",
            "twice, line 20",
        ),
        (
            "init\n",
            "init\ntask again levels 0 materials 0\ncomputes u = 1\n",
            "double compute, line 15",
        ),
    ] {
        let text = TWO_PATCHES.replace(alloc, old, new)?;
        let later = text.as_str().replace(alloc, "end\n", "keep z\nend\n")?;
        assert!(rt; is_refused(alloc, later.as_str(), words)?, "{words}");
    }
    let bad = TWO_PATCHES.replace(alloc, "steps 2", "steps 65536")?;
    let bad = bad.as_str().replace(alloc, "end\n", "end end\n")?;
    assert!(rt; is_refused(alloc, bad.as_str(), "bad text, line 19")?);
    Ok(())
}

#[test]
fn a_level_that_does_not_fit_is_refused(rt: HostRuntime) -> Result<(), Fail> {
    let alloc = rt.alloc();
    for patch in [
        "1 0 0 4 1 1",
        "3 0 0 4 1 1",
        "2 0 0 5 1 1",
        "2 0 0 4 2 1",
        "2 0 0 4 1 2",
    ] {
        let text = TWO_PATCHES.replace(alloc, "2 0 0 4 1 1", patch)?;
        assert!(rt;
            is_refused(alloc, text.as_str(), "bad grid, line 6")?,
            "{patch}"
        );
    }
    for patch in ["0 1 1 3 2 2", "1 0 1 3 2 2", "1 1 0 3 2 2"] {
        let text = TWO_PATCHES.replace(alloc, "box 0 0 0 4 1 1", "box 1 1 1 5 2 2")?;
        let text = text
            .as_str()
            .replace(alloc, "patch 2 0 0 4 1 1", "patch 3 1 1 5 2 2")?;
        let text = text.as_str().replace(alloc, "0 0 0 2 1 1", patch)?;
        assert!(rt;
            is_refused(alloc, text.as_str(), "bad grid, line 6")?,
            "{patch}"
        );
    }
    for level in [
        "level ratio 2\nbox 4 0 0 10 2 2\npatch 4 0 0 10 2 2\nvar",
        "level ratio 3\nbox 0 0 0 3 3 3\npatch 0 0 0 3 3 3\nvar",
        "level ratio 2\nbox 0 0 0 3 2 2\npatch 0 0 0 3 2 2\nvar",
    ] {
        let text = TWO_PATCHES.replace(alloc, "var", level)?;
        assert!(rt;
            is_refused(alloc, text.as_str(), "bad grid, line 10")?,
            "{level}"
        );
    }
    Ok(())
}

#[test]
fn what_is_modified_stands_behind_what_computes_it(rt: HostRuntime) -> Result<(), Fail> {
    let alloc = rt.alloc();
    for (text, old, new, words) in [
        (
            NODES,
            "new.n[1,0,0]",
            "new.n[-1,0,0]",
            "read beyond ghost, line 17",
        ),
        (
            MODIFIED,
            "init\n",
            "init\ntask early levels 0 materials 0\nmodifies u = 100\n",
            "unordered modify, line 15",
        ),
        (
            MODIFIED,
            "task a levels 0 materials 0\ncomputes u = x\n",
            "task a levels 0 materials 0\nmodifies u = 100\n",
            "missing compute, line 15",
        ),
        (
            REFINED,
            "task b levels 0",
            "task b levels 1",
            "double compute, line 19",
        ),
    ] {
        let changed = text.replace(alloc, old, new)?;
        assert!(rt; is_refused(alloc, changed.as_str(), words)?, "{words}");
    }
    Ok(())
}
