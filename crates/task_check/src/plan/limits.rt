//! The limits of the plans.
ghost use Rattle.std.specs.Prelude.{◌≡◌, ◌+◌, ◌<◌, ◌↔◌, IsTrue};
ghost use Rattle.problem_types.specs.Form.{IsProblemInForm};
ghost use Rattle.problem_types.specs.Lists.{task_list};
ghost use Rattle.task_check.specs.Counts.{IsAbove, IsPlanTooLarge, slot_count, stored_count};
ghost use Rattle.task_check.specs.First.{IsFaultless, IsFirstLimit, limit_rank};

use crate::fault::Which;
use crate::plan::details::detailed_count;
use crate::plan::gathered::is_gathered_above;
use crate::plan::old_slots::old_slots;
use crate::plan::reads::read_count;
use crate::plan::slots::{written_count, written_size};
use problem_types::Problem;

/// How many slots the plan of a list has.
fn slot_count(p: &Problem, list: u32) -> u64
    requires form { IsProblemInForm p.now }
    requires faultless { IsFaultless p.now }
    requires list { list < 2 }
    ensures { result ≡ slot_count p.now (task_list p.now list) }
{
    old_slots(p, list).slots + written_count(p, list) as u64
}

/// How many numbers the slots of the plan of a list hold.
fn stored_count(p: &Problem, list: u32) -> u64
    requires form { IsProblemInForm p.now }
    requires faultless { IsFaultless p.now }
    requires list { list < 2 }
    ensures { result ≡ stored_count p.now (task_list p.now list) }
{
    old_slots(p, list).numbers + written_size(p, list)
}

/// Whether the plan of a list is above the limit.
fn is_above(p: &Problem, list: u32, which: Which) -> bool
    requires form { IsProblemInForm p.now }
    requires faultless { IsFaultless p.now }
    requires list { list < 2 }
    ensures { IsTrue result ↔ IsAbove p.now (task_list p.now list) which }
{
    match which {
        Which::Detailed => detailed_count(p, list) > 65_536,
        Which::Slots => slot_count(p, list) > 262_144,
        Which::Reads => read_count(p, list).is_none(),
        Which::Stored => stored_count(p, list) > 16_777_216,
        Which::Gathered => is_gathered_above(p, list, 2_097_152),
        _ => false,
    }
}

/// Whether the plan of one of the two lists is above the limit.
fn is_plan_too_large(p: &Problem, which: Which) -> bool
    requires form { IsProblemInForm p.now }
    requires faultless { IsFaultless p.now }
    ensures { IsTrue result ↔ IsPlanTooLarge p.now which }
{
    is_above(p, 0, which) || is_above(p, 1, which)
}

/// The limits of the plans in order.
fn limit_at(place: usize) -> Which
    requires { place < 5 }
    ensures { limit_rank result ≡ 12 + place }
{
    match place {
        0 => Which::Detailed,
        1 => Which::Slots,
        2 => Which::Reads,
        3 => Which::Stored,
        _ => Which::Gathered,
    }
}

/// The first limit that a plan is above.
pub(crate) fn plan_fault(p: &Problem) -> Option<Which>
    requires form { IsProblemInForm p.now }
    requires faultless { IsFaultless p.now }
    ensures { IsFirstLimit (IsPlanTooLarge p.now) result }
{
    for place in 0..5 {
        let which = limit_at(place);
        if is_plan_too_large(p, which) {
            return Some(which);
        }
    }
    None
}
