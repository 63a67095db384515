//! How many slots the detailed tasks of a list read, as far as they are within the limit.
ghost use Rattle.std.specs.Prelude.{◌≡◌, ◌+◌, ◌*◌, ◌<◌, ◌≤◌, Contains, length};
ghost use Rattle.problem_types.specs.Form.{IsProblemInForm};
ghost use Rattle.problem_types.specs.Lists.{task_list};
ghost use Rattle.task_rules.specs.Lines.{wanted_level};
ghost use Rattle.task_check.specs.Counts.{read_count};
ghost use Rattle.task_check.specs.First.{IsFaultless};
ghost use Rattle.task_check.specs.Kept.{AreRight};
ghost use Rattle.task_check.specs.Supplies.{layers_of};
ghost use Rattle.task_check.specs.Reaches.{reach_of};
ghost use Rattle.task_check.specs.Reading.{IsUpToLimit, level_reads, requirement_reads, task_reads};
ghost use Rattle.task_check.specs.Sizes.{IsTask};

use crate::plan::details::{part_count, patch_count, reduces_count};
use crate::plan::kept::Touches;
use crate::plan::reach::Reach;
use crate::supplies::seen_of;
use problem_lookup::{centring_of, task_list};
use problem_types::{Problem, Require, Task, What};
use task_rules::wanted_name;

/// The most pairs of a detailed task and a slot that it reads.
const MOST_READS: u64 = 2_097_152;

/// The count, as far as it is within the limit.
fn up_to_limit(n: u64) -> Option<u64>
    ensures { IsUpToLimit n result }
{
    if n <= MOST_READS { Some(n) } else { None }
}

/// What a requirement reaches: nothing where it is of a reduction.
pub fn reach_of(t: &Task, r: Require) -> Option<Reach>
    ensures { result ≡ reach_of t.now r.store r.what }
{
    match r.what {
        What::Same { var, layers } => Some(Reach::Same(seen_of(t, var, r.store, layers))),
        What::Coarse { layers, .. } => Some(Reach::Coarse(layers)),
        What::Fine { .. } => Some(Reach::Fine),
        What::Number { .. } => None,
    }
}

/// How many slots a requirement reads on a level, for one material.
fn requirement_reads(p: &Problem, t: &Task, level: u64, r: Require, touches: &mut Touches) -> u64
    requires form { IsProblemInForm p.now }
    requires faultless { IsFaultless p.now }
    requires few { layers_of r.what ≤ 8 }
    requires level { level < length p.now.levels }
    requires wanted { wanted_level r.what level < length p.now.levels }
    requires kept { AreRight p.now touches.old.kept }
    ensures reads { result ≡ requirement_reads p.now t.now level r }
    ensures few { result ≤ 1024 * 1024 }
    ensures kept { AreRight p.now touches.new.kept }
{
    match reach_of(t, r) {
        Some(reach) => touches.count(p, level, reach, centring_of(p, wanted_name(r.what))),
        None => patch_count(p, level) as u64,
    }
}

/// Those counted before, and what the task reads on a level.
fn add_level(p: &Problem, t: &Task, level: u64, before: u64, touches: &mut Touches) -> Option<u64>
    requires form { IsProblemInForm p.now }
    requires faultless { IsFaultless p.now }
    requires task { IsTask p.now t.now }
    requires level { Contains t.now.levels level }
    requires before { before ≤ 2097152 }
    requires kept { AreRight p.now touches.old.kept }
    ensures total { IsUpToLimit (before + level_reads p.now t.now level) result }
    ensures kept { AreRight p.now touches.new.kept }
{
    let materials = t.materials.len() as u64;
    let mut total = before;
    for r in t.requirements.as_slice() {
        total = up_to_limit(total + materials * requirement_reads(p, t, level, *r, touches))?;
    }
    Some(total)
}

/// Those counted before, and what the task reads.
fn add_task(p: &Problem, t: &Task, before: u64, touches: &mut Touches) -> Option<u64>
    requires form { IsProblemInForm p.now }
    requires faultless { IsFaultless p.now }
    requires task { IsTask p.now t.now }
    requires before { before ≤ 2097152 }
    requires kept { AreRight p.now touches.old.kept }
    ensures total { IsUpToLimit (before + task_reads p.now t.now) result }
    ensures kept { AreRight p.now touches.new.kept }
{
    let mut total = before;
    for level in t.levels.as_slice() {
        total = add_level(p, t, *level, total, touches)?;
    }
    up_to_limit(total + (reduces_count(t.writes.as_slice()) * part_count(p, t)) as u64)
}

/// How many pairs there are of a detailed task of the list and a slot that it reads, `None` where there are more than the limit.
pub(crate) fn read_count(p: &Problem, list: u32) -> Option<u64>
    requires form { IsProblemInForm p.now }
    requires faultless { IsFaultless p.now }
    requires list { list < 2 }
    ensures { IsUpToLimit (read_count p.now (task_list p.now list)) result }
{
    let mut touches = Touches::new();
    let mut total = 0;
    for t in task_list(p, list) {
        total = add_task(p, t, total, &mut touches)?;
    }
    Some(total)
}
