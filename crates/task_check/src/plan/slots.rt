//! How many slots the tasks of a list write, and how many numbers these hold. A patch owns at most 68,769,820,673 indexes, which is
//! 4,097 on each axis, and the 1,024 patches of a level together at most 70,420,296,369,152.
ghost use Rattle.std.specs.Prelude.{◌≡◌, ◌≤◌, ◌<◌, ◌*◌, ◌+◌, All, length};
ghost use Rattle.std.specs.List.{flat_map, sum_by};
ghost use Rattle.problem_types.specs.Form.{IsProblemInForm};
ghost use Rattle.problem_types.specs.Lists.{task_list};
ghost use Rattle.task_check.specs.Counts.{slot_size};
ghost use Rattle.task_check.specs.First.{IsFaultless};
ghost use Rattle.task_check.specs.Plan.{details_of, patches_of, written_by};
ghost use Rattle.task_check.specs.Sizes.{IsTask, line_size, line_total, owned_on, slots_written, written_total};

use crate::plan::details::{part_count, patch_count, reduces_count};
use crate::plan::windows::level_at;
use patch_regions::owned;
use problem_lookup::{centring_of, task_list};
use problem_types::{Centring, Problem, Task, Write, WriteKind};
use uts_geom::volume;

/// How many slots the detailed tasks of the task write.
fn slots_written(p: &Problem, t: &Task) -> usize
    requires form { IsProblemInForm p.now }
    requires faultless { IsFaultless p.now }
    requires task { IsTask p.now t.now }
    ensures count { result ≡ slots_written p.now t.now }
    ensures few { result ≤ 2097216 }
{
    let writes = t.writes.as_slice();
    part_count(p, t) * writes.len() + reduces_count(writes)
}

/// How many slots the detailed tasks of the list write.
pub(crate) fn written_count(p: &Problem, list: u32) -> usize
    requires form { IsProblemInForm p.now }
    requires faultless { IsFaultless p.now }
    requires list { list < 2 }
    ensures count { result ≡ length (flat_map (written_by (task_list p.now list)) (details_of p.now (task_list p.now list))) }
    ensures few { result ≤ 64 * 2097216 }
{
    let mut total = 0;
    for t in task_list(p, list) {
        total += slots_written(p, t);
    }
    total
}

/// How many numbers of a centring the patches of the level own together.
fn owned_on(p: &Problem, level: u64, c: Centring) -> u64
    requires form { IsProblemInForm p.now }
    requires faultless { IsFaultless p.now }
    requires level { level < length p.now.levels }
    ensures sum { result ≡ owned_on p.now c level }
    ensures few { result ≤ 70420296369152 }
{
    let l = level_at(p, level);
    let mut total = 0;
    for patch in 0..l.patches.len() as u32 {
        total += volume(owned(l, patch, c));
    }
    total
}

/// How many numbers the line writes on the patches of the level, for one material.
fn line_on(p: &Problem, level: u64, w: &Write) -> u64
    requires form { IsProblemInForm p.now }
    requires faultless { IsFaultless p.now }
    requires level { level < length p.now.levels }
    ensures sum { result ≡ sum_by (line_size p.now w.now level) (patches_of p.now level) }
    ensures few { result ≤ 70420296369152 }
{
    match w.kind {
        WriteKind::Reduces(_) => patch_count(p, level) as u64,
        _ => owned_on(p, level, centring_of(p, w.name)),
    }
}

/// How many numbers the line writes on the patches of the levels, for one material.
fn line_total(p: &Problem, levels: &[u64], w: &Write) -> u64
    requires form { IsProblemInForm p.now }
    requires faultless { IsFaultless p.now }
    requires few_levels { length levels.now ≤ 4 }
    requires levels { All (λ level. level < length p.now.levels) levels.now }
    ensures sum { result ≡ line_total p.now levels.now w.now }
    ensures few { result ≤ 4 * 70420296369152 }
{
    let mut total = 0;
    for level in levels {
        total += line_on(p, *level, w);
    }
    total
}

/// How many numbers the lines of the task write on its patches, for one material.
fn lines_total(p: &Problem, t: &Task) -> u64
    requires form { IsProblemInForm p.now }
    requires faultless { IsFaultless p.now }
    requires task { IsTask p.now t.now }
    ensures sum { result ≡ sum_by (line_total p.now t.now.levels) t.now.writes }
    ensures few { result ≤ 256 * 70420296369152 }
{
    let mut total = 0;
    for w in t.writes.as_slice() {
        total += line_total(p, t.levels.as_slice(), w);
    }
    total
}

/// How many numbers the detailed tasks of the task write.
fn written_total(p: &Problem, t: &Task) -> u64
    requires form { IsProblemInForm p.now }
    requires faultless { IsFaultless p.now }
    requires task { IsTask p.now t.now }
    ensures sum { result ≡ written_total p.now t.now }
    ensures few { result ≤ 2048 * 70420296369152 + 64 }
{
    t.materials.len() as u64 * lines_total(p, t) + reduces_count(t.writes.as_slice()) as u64
}

/// How many numbers the slots hold that the detailed tasks of the list write.
pub(crate) fn written_size(p: &Problem, list: u32) -> u64
    requires form { IsProblemInForm p.now }
    requires faultless { IsFaultless p.now }
    requires list { list < 2 }
    ensures sum { result ≡ sum_by (slot_size p.now (task_list p.now list)) (flat_map (written_by (task_list p.now list)) (details_of p.now (task_list p.now list))) }
    ensures few { result ≤ 64 * (2048 * 70420296369152 + 64) }
{
    let mut total = 0;
    for t in task_list(p, list) {
        total += written_total(p, t);
    }
    total
}
