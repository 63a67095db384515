//! All of a core but its graph, to be compared with a table drawn by hand.
use sched_core::{Core, View};

/// The words of a core, the marks of its slots, and its views.
#[derive(Clone, Copy, Debug, PartialEq, Eq)]
pub(crate) struct Words<'a> {
    pub(crate) head: u64,
    pub(crate) tail: u64,
    pub(crate) ring: &'a [u64],
    pub(crate) dep: &'a [u64],
    pub(crate) published: &'a [u64],
    pub(crate) left: &'a [u64],
    pub(crate) turn: &'a [u64],
    pub(crate) done: u64,
    pub(crate) abort: u64,
    pub(crate) home: &'a [bool],
    pub(crate) views: &'a [View],
}

pub(crate) fn words_of(core: &Core) -> Words<'_> {
    Words {
        head: core.head,
        tail: core.tail,
        ring: core.ring.as_slice(),
        dep: core.dep.as_slice(),
        published: core.published.as_slice(),
        left: core.left.as_slice(),
        turn: core.turn.as_slice(),
        done: core.done,
        abort: core.abort,
        home: core.home.as_slice(),
        views: core.views.as_slice(),
    }
}
