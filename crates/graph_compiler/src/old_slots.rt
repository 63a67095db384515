//! The slots of the step before that a list reads, and where they stand.
ghost use Rattle.std.specs.Prelude.{◌≡◌, ◌+◌, ◌≤◌, IfOk, List, length, map, take};
ghost use Rattle.std.specs.List.{count_by};
ghost use Rattle.uts_geom.specs.Spans.{counted};
ghost use Rattle.problem_types.specs.declared.problem.Problem.{Problem};
ghost use Rattle.problem_types.specs.declared.problem.Task.{Task};
ghost use Rattle.task_check.specs.Bounds.{IsBounded};
ghost use Rattle.task_check.specs.Plan.{is_read, old_numbers, old_variables};
ghost use Rattle.graph_compiler.specs.Places.{AreOldSlots, marked_before, read_slots};

use crate::old_reads::OldReads;
use crate::plan::Slot;
use problem_types::NoMemory;
use sqlite_items::Items;
use std::alloc::{AllocError, Global};

/// The old slots, and where each variable on each level, material and patch and each reduction stands among them: at the number of those
/// read before.
#[derive(Debug, Drop)]
pub(crate) struct OldSlots {
    pub(crate) slots: Items<Slot>,
    pub(crate) variables: Vec<u32>,
    pub(crate) numbers: Vec<u32>,
}

/// For each mark how many are set before it, and so many more.
fn places(alloc: Global, more: u32, marks: &[bool]) -> Result<Vec<u32>, AllocError>
    requires { more + length marks.now ≤ 4194304 }
    ensures { IfOk result (λ places. places.items ≡ map (λ k. more + marked_before marks.now k) (counted 0 (length marks.now))) }
{
    let mut places = Vec::new(alloc);
    let mut before = more;
    for mark in marks {
        places.push(before)?;
        before += u32::from(*mark);
    }
    Ok(places)
}

/// How many marks are set.
fn marked(marks: &[bool]) -> usize
    ensures count { result ≡ count_by (λ mark. mark) marks.now }
    ensures within { result ≤ length marks.now }
{
    marks.iter().filter(|mark| **mark).count()
}

/// The slots of the step before that are read.
pub(crate) fn old_slots(alloc: Global, reads: OldReads) -> Result<OldSlots, NoMemory>
    requires variables { length reads.variables.items ≤ 2097152 }
    requires numbers { length reads.numbers.items ≤ 2097152 }
    ensures { (p : Problem) (tasks : List Task) → reads.variables.items ≡ map (is_read p tasks) (old_variables p) → reads.numbers.items ≡ map (is_read p tasks) (old_numbers p)
        → reads.slots ≡ read_slots p tasks → IfOk result (λ old. AreOldSlots p tasks old) }
{
    let OldReads {
        variables,
        numbers,
        slots,
    } = reads;
    let more = marked(&variables) as u32;
    Ok(OldSlots {
        slots,
        variables: places(alloc, 0, &variables)?,
        numbers: places(alloc, more, &numbers)?,
    })
}
