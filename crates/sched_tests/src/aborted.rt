//! A run that is aborted halfway.
use crate::graphs::DIAMOND;
use crate::steps::{Turn, has_taken, started};
use crate::words::{Words, words_of};
use sched_core::{Kind, View};
use std::test::Fail;

/// Seat 2 aborts before task 2, while seat 1 is inside task 1. Seat 0 waits for task 3, which nobody will put, and is stopped. Seat 1 ends
/// its task, and draws a place behind all tasks.
const TURNS: [Turn; 7] = [
    Turn {
        seat: 0,
        kinds: &[
            Kind::Split,
            Kind::Split,
            Kind::Draw,
            Kind::See,
            Kind::Open,
            Kind::Close,
            Kind::Publish,
            Kind::LowerUse,
            Kind::Scrub,
            Kind::LowerUse,
            Kind::LowerDep,
            Kind::Place,
            Kind::Put,
            Kind::LowerDep,
            Kind::Place,
            Kind::Put,
            Kind::Finish,
        ],
    },
    Turn {
        seat: 1,
        kinds: &[Kind::Draw, Kind::See, Kind::Open],
    },
    Turn {
        seat: 2,
        kinds: &[Kind::Draw, Kind::See],
    },
    Turn {
        seat: 0,
        kinds: &[Kind::Draw, Kind::See, Kind::LookAbort],
    },
    Turn {
        seat: 2,
        kinds: &[Kind::Abort],
    },
    Turn {
        seat: 1,
        kinds: &[
            Kind::Close,
            Kind::Publish,
            Kind::LowerUse,
            Kind::LowerUse,
            Kind::LowerDep,
            Kind::Finish,
            Kind::Draw,
        ],
    },
    Turn {
        seat: 0,
        kinds: &[
            Kind::LookAbort,
            Kind::Join(1),
            Kind::Join(2),
            Kind::LookDone,
        ],
    },
];

const END: Words<'static> = Words {
    head: 5,
    tail: 3,
    ring: &[1, 2, 3, 0],
    dep: &[0, 0, 0, 1],
    published: &[1, 1, 0, 0],
    left: &[0, 1, 1, 2, 2],
    turn: &[2, 0, 0, 0, 0],
    done: 2,
    abort: 1,
    home: &[false, true, true, false, false],
    views: &[
        View::Closing { gone: 1, halted: 2 },
        View::Spent,
        View::Spent,
    ],
};

#[test]
fn an_abort_stops_the_others(rt: HostRuntime) -> Result<(), Fail> {
    let mut core = started(rt.alloc(), DIAMOND, 3)?;
    assert!(rt; has_taken(&mut core, &TURNS));
    assert_eq!(rt; words_of(&core), END);
    Ok(())
}
