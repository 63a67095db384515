//! How many detailed tasks there are.
ghost use Rattle.std.specs.Prelude.{◌≡◌, ◌≤◌, ◌<◌, ◌*◌, length};
ghost use Rattle.problem_types.specs.Form.{IsProblemInForm};
ghost use Rattle.problem_types.specs.Lists.{task_list};
ghost use Rattle.task_check.specs.Counts.{detailed_count};
ghost use Rattle.task_check.specs.First.{IsFaultless};
ghost use Rattle.task_check.specs.Plan.{patches_of};
ghost use Rattle.task_check.specs.Sizes.{IsTask, details_count, part_count, patches_on, reduces_count};

use problem_lookup::task_list;
use problem_types::{Problem, Task, Write, WriteKind};

/// How many patches the level has.
pub(crate) fn patch_count(p: &Problem, level: u64) -> usize
    requires form { IsProblemInForm p.now }
    requires faultless { IsFaultless p.now }
    ensures count { result ≡ length (patches_of p.now level) }
    ensures few { result ≤ 1024 }
{
    match p.levels.as_slice().get(level as usize) {
        Some(l) => l.patches.len(),
        None => 0,
    }
}

/// How many patches the levels have.
fn patches_on(p: &Problem, levels: &[u64]) -> usize
    requires form { IsProblemInForm p.now }
    requires faultless { IsFaultless p.now }
    requires few_levels { length levels.now ≤ 4 }
    ensures count { result ≡ patches_on p.now levels.now }
    ensures few { result ≤ 4096 }
{
    let mut total = 0;
    for level in levels {
        total += patch_count(p, *level);
    }
    total
}

/// How many of the lines reduce.
pub fn reduces_count(writes: &[Write]) -> usize
    ensures count { result ≡ reduces_count writes.now }
    ensures within { result ≤ length writes.now }
{
    writes
        .iter()
        .filter(|w| matches!(w.kind, WriteKind::Reduces(_)))
        .count()
}

/// How many detailed tasks the task has on patches.
pub(crate) fn part_count(p: &Problem, t: &Task) -> usize
    requires form { IsProblemInForm p.now }
    requires faultless { IsFaultless p.now }
    requires task { IsTask p.now t.now }
    ensures count { result ≡ part_count p.now t.now }
    ensures few { result ≤ 32768 }
{
    t.materials.len() * patches_on(p, t.levels.as_slice())
}

/// How many detailed tasks the task has.
fn details_count(p: &Problem, t: &Task) -> usize
    requires form { IsProblemInForm p.now }
    requires faultless { IsFaultless p.now }
    requires task { IsTask p.now t.now }
    ensures count { result ≡ details_count p.now t.now }
    ensures few { result ≤ 32832 }
{
    part_count(p, t) + reduces_count(t.writes.as_slice())
}

/// How many detailed tasks the list has.
pub(crate) fn detailed_count(p: &Problem, list: u32) -> usize
    requires form { IsProblemInForm p.now }
    requires faultless { IsFaultless p.now }
    requires list { list < 2 }
    ensures count { result ≡ detailed_count p.now (task_list p.now list) }
    ensures few { result ≤ 64 * 32832 }
{
    let mut total = 0;
    for t in task_list(p, list) {
        total += details_count(p, t);
    }
    total
}
