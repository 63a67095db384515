//! Two small graphs, each run through by hand.
use crate::graphs::{NO_TASKS, TWO_TASKS};
use crate::steps::{started, taken};
use crate::words::{Words, words_of};
use sched_core::{Kind, View};
use std::test::Fail;

/// All that a single seat does to run two tasks and to find no more.
pub(crate) const TWO_TASKS_RUN: [Kind; 18] = [
    Kind::Draw,
    Kind::See,
    Kind::Publish,
    Kind::LowerUse,
    Kind::LowerDep,
    Kind::Place,
    Kind::Put,
    Kind::Finish,
    Kind::Draw,
    Kind::See,
    Kind::Open,
    Kind::Close,
    Kind::Publish,
    Kind::LowerUse,
    Kind::Scrub,
    Kind::LowerUse,
    Kind::Finish,
    Kind::Draw,
];

/// Where it leaves the core.
const TWO_TASKS_END: Words<'static> = Words {
    head: 3,
    tail: 2,
    ring: &[1, 2],
    dep: &[0, 0],
    published: &[1, 1],
    left: &[0, 1],
    turn: &[2, 0],
    done: 2,
    abort: 0,
    home: &[false, true],
    views: &[View::Gone],
};

#[test]
fn two_tasks_run_through(rt: HostRuntime) -> Result<(), Fail> {
    let mut core = started(rt.alloc(), TWO_TASKS, 1)?;
    assert_eq!(rt; taken(&mut core, 0, &TWO_TASKS_RUN), 18);
    assert_eq!(rt; words_of(&core), TWO_TASKS_END);
    Ok(())
}

#[test]
fn seats_without_tasks_are_joined(rt: HostRuntime) -> Result<(), Fail> {
    let mut core = started(rt.alloc(), NO_TASKS, 2)?;
    assert_eq!(rt; taken(&mut core, 0, &[Kind::Split, Kind::Draw]), 2);
    assert_eq!(rt; taken(&mut core, 1, &[Kind::Draw]), 1);
    assert_eq!(rt; taken(&mut core, 0, &[Kind::Join(1), Kind::LookDone]), 2);
    assert_eq!(rt; core.head, 2);
    let joined = View::Closing { gone: 2, halted: 0 };
    assert_eq!(rt; core.views.as_slice(), [joined, View::Spent].as_slice());
    Ok(())
}
