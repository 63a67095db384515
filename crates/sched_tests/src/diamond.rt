//! The diamond run by three seats, in each order in which they may draw.
ghost use Rattle.std.specs.Prelude.{◌<◌, length};
ghost use Rattle.sched_core.specs.Sound.{IsSound};

use crate::graphs::DIAMOND;
use crate::steps::{started, taken, takes};
use crate::words::{Words, words_of};
use sched_core::{Core, Kind, View};
use std::alloc::Global;
use std::test::Fail;

/// The steps of a seat that has a ticket or runs a task. At each place one of them is enabled.
const WORK: [Kind; 10] = [
    Kind::See,
    Kind::Open,
    Kind::Close,
    Kind::Publish,
    Kind::LowerUse,
    Kind::Scrub,
    Kind::LowerDep,
    Kind::Place,
    Kind::Put,
    Kind::Finish,
];

/// For each task those that are published before it begins.
const BEFORE: [&[usize]; 4] = [&[], &[0], &[0], &[1, 2]];

/// The orders in which three seats may draw once each.
const LAST_DRAWS: [[u32; 3]; 6] = [
    [0, 1, 2],
    [0, 2, 1],
    [1, 0, 2],
    [1, 2, 0],
    [2, 0, 1],
    [2, 1, 0],
];

const END: Words<'static> = Words {
    head: 7,
    tail: 4,
    ring: &[1, 2, 3, 4],
    dep: &[0, 0, 0, 0],
    published: &[1, 1, 1, 1],
    left: &[0, 0, 0, 0, 1],
    turn: &[2, 2, 2, 2, 0],
    done: 4,
    abort: 0,
    home: &[false, false, false, false, true],
    views: &[View::Gone, View::Gone, View::Gone],
};

/// Takes the step at which the seat stands, if it stands at one.
fn goes_on(core: &mut Core, seat: u32)
    requires { IsSound core.old }
    ensures { IsSound core.new }
{
    for kind in &WORK {
        if takes(core, seat, *kind) {
            return;
        }
    }
}

/// Whether all that the task waits for is published.
fn may_run(published: &[u64], task: u32) -> bool {
    match BEFORE.get(task as usize) {
        Some(before) => before.iter().all(|first| published.get(*first) == Some(&1)),
        None => false,
    }
}

/// Whether the seat runs a task that may run, if it runs one.
fn is_in_order(core: &Core, seat: u32) -> bool {
    match core.view(seat) {
        View::Running { task, .. } => may_run(core.published.as_slice(), task),
        _ => true,
    }
}

/// Whether the seats run two tasks, or have the tickets of two places, if both run one or both have one.
fn are_apart(core: &Core, one: u32, other: u32) -> bool {
    match (core.view(one), core.view(other)) {
        (View::Running { task: a, .. }, View::Running { task: b, .. }) => a != b,
        (View::Ticket(a), View::Ticket(b)) => a != b,
        _ => true,
    }
}

/// Whether each value that is home stands in a slot that is free.
fn are_free_at_home(core: &Core) -> bool {
    core.home
        .as_slice()
        .iter()
        .zip(core.turn.as_slice())
        .all(|(home, turn)| !*home || *turn == 0)
}

/// What has to hold behind each step.
fn is_fine(core: &Core) -> bool {
    (0..3).all(|seat| is_in_order(core, seat))
        && are_apart(core, 0, 1)
        && are_apart(core, 0, 2)
        && are_apart(core, 1, 2)
        && are_free_at_home(core)
}

/// Notes the task of a seat that did not run one before.
fn note(begun: &mut Vec<u32>, before: View, now: View) -> Result<(), Fail> {
    match (before, now) {
        (View::Ticket(_), View::Running { task, .. }) => begun.push(task)?,
        _ => {}
    }
    Ok(())
}

/// One step of the seat.
fn moves(core: &mut Core, begun: &mut Vec<u32>, seat: u32) -> Result<(), Fail>
    requires { IsSound core.old }
    ensures { IsSound core.new }
{
    let before = core.view(seat);
    goes_on(core, seat);
    note(begun, before, core.view(seat))?;
    if is_fine(core) {
        Ok(())
    } else {
        Err(Fail::new("a step leaves what may not be"))
    }
}

/// One step of each seat.
fn round(core: &mut Core, begun: &mut Vec<u32>) -> Result<(), Fail>
    requires { IsSound core.old }
    ensures { IsSound core.new }
{
    for seat in 0..3 {
        moves(core, begun, seat)?;
    }
    Ok(())
}

/// Rounds until the seat is idle.
fn ends_its_task(core: &mut Core, begun: &mut Vec<u32>, seat: u32) -> Result<(), Fail>
    requires { IsSound core.old }
    ensures { IsSound core.new }
{
    for _round in 0..64 {
        if core.view(seat) == View::Idle {
            return Ok(());
        }
        round(core, begun)?;
    }
    Err(Fail::new("a seat does not come to the end of its task"))
}

/// The seat draws the next place, once it is idle.
fn draws(core: &mut Core, begun: &mut Vec<u32>, seat: u32) -> Result<(), Fail>
    requires { IsSound core.old }
    ensures { IsSound core.new }
{
    ends_its_task(core, begun, seat)?;
    if takes(core, seat, Kind::Draw) && is_fine(core) {
        Ok(())
    } else {
        Err(Fail::new("a seat does not draw"))
    }
}

/// The seats draw in this order. Answers the tasks in the order in which they began.
fn run(alloc: Global, core: &mut Core, order: &[u32]) -> Result<Vec<u32>, Fail>
    requires { IsSound core.old }
    ensures { IsSound core.new }
{
    let mut begun = Vec::new(alloc);
    for seat in order {
        draws(core, &mut begun, *seat)?;
    }
    Ok(begun)
}

/// Whether the diamond comes to its end where the seats draw in this order.
fn runs_through(alloc: Global, order: &[u32]) -> Result<bool, Fail> {
    let mut core = started(alloc, DIAMOND, 3)?;
    taken(&mut core, 0, &[Kind::Split, Kind::Split]);
    let begun = run(alloc, &mut core, order)?;
    let is_order = begun.as_slice() == [0, 1, 2, 3].as_slice()
        || begun.as_slice() == [0, 2, 1, 3].as_slice();
    Ok(is_order && words_of(&core) == END)
}

/// Whether the diamond runs through where the four tickets go to these seats, and the seats then draw in each order once more.
fn runs_with(alloc: Global, tickets: [u32; 4]) -> Result<bool, Fail> {
    for last in &LAST_DRAWS {
        let order = [
            tickets[0], tickets[1], tickets[2], tickets[3], last[0], last[1], last[2],
        ];
        if !runs_through(alloc, &order)? {
            return Ok(false);
        }
    }
    Ok(true)
}

/// Any of the three seats may draw each of the four tickets.
#[test]
fn the_diamond_runs_in_each_order_of_draws(rt: HostRuntime) -> Result<(), Fail> {
    for n in 0..81 {
        let tickets = [n % 3, n / 3 % 3, n / 9 % 3, n / 27];
        assert!(rt; runs_with(rt.alloc(), tickets)?, "{tickets:?}");
    }
    Ok(())
}
