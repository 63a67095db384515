//! Events that are not enabled: the step answers false, and nothing changes.
ghost use Rattle.std.specs.Prelude.{IfOk};
ghost use Rattle.sched_core.specs.Sound.{IsSound};

use crate::graphs::TWO_TASKS;
use crate::runs::TWO_TASKS_RUN;
use crate::steps::{started, takes};
use crate::words::words_of;
use sched_core::{Core, Kind};
use std::alloc::Global;
use std::test::Fail;

/// Each kind of step once, behind so many steps of the run of two tasks, where the seat may not take it.
const REFUSALS: [(usize, Kind); 16] = [
    // a seat with a ticket makes no other seat, and draws no other ticket
    (1, Kind::Split),
    (1, Kind::Draw),
    // an idle seat has no place to look at
    (0, Kind::See),
    // a seat that runs a task does not look whether the step was aborted, and does not abort it once the task has done something
    (2, Kind::LookAbort),
    (3, Kind::Abort),
    // a task ends at the last place alone
    (4, Kind::Finish),
    // a seat with a ticket does not look how many tasks are done
    (1, Kind::LookDone),
    // an idle seat joins none
    (0, Kind::Join(1)),
    // a task publishes once
    (3, Kind::Publish),
    // a task that lowered the count of another last does not lower it again, but draws a place for it before it puts it there
    (5, Kind::LowerDep),
    (4, Kind::Place),
    (5, Kind::Put),
    // a task that reads nothing opens nothing, and what is closed is not closed again
    (2, Kind::Open),
    (12, Kind::Close),
    // no use is lowered before the task has published, and no slot scrubbed that another still uses
    (2, Kind::LowerUse),
    (4, Kind::Scrub),
];

/// The core of two tasks and two seats behind so many steps of their run by seat 0.
fn behind(alloc: Global, count: usize) -> Result<Core, Fail>
    ensures { IfOk result IsSound }
{
    let mut core = started(alloc, TWO_TASKS, 2)?;
    for kind in TWO_TASKS_RUN.iter().take(count) {
        if !takes(&mut core, 0, *kind) {
            return Err(Fail::new("a step of the run is not enabled"));
        }
    }
    Ok(core)
}

/// Whether the seat's step behind so many of seat 0 is refused, and leaves all as it was.
fn is_refused(alloc: Global, count: usize, seat: u32, refused: Kind) -> Result<bool, Fail> {
    let before = behind(alloc, count)?;
    let mut core = behind(alloc, count)?;
    let takes = takes(&mut core, seat, refused);
    Ok(!takes && words_of(&core) == words_of(&before))
}

#[test]
fn each_kind_is_refused_where_the_view_does_not_allow_it(rt: HostRuntime) -> Result<(), Fail> {
    for (count, kind) in REFUSALS {
        assert!(rt; is_refused(rt.alloc(), count, 0, kind)?, "{kind:?}");
    }
    Ok(())
}

/// Seat 0 is gone, seat 1 is not made, and nobody has seat 2.
#[test]
fn only_closed_seats_are_joined(rt: HostRuntime) -> Result<(), Fail> {
    for other in 0..3 {
        assert!(rt; is_refused(rt.alloc(), 18, 0, Kind::Join(other))?);
    }
    Ok(())
}

/// Seat 1 is not made, and nobody has seat 2.
#[test]
fn a_seat_that_is_not_there_takes_no_step(rt: HostRuntime) -> Result<(), Fail> {
    for (_, kind) in REFUSALS {
        assert!(rt; is_refused(rt.alloc(), 2, 1, kind)?);
        assert!(rt; is_refused(rt.alloc(), 2, 2, kind)?);
    }
    Ok(())
}
