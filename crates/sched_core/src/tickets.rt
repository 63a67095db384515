//! The steps of tickets: seats are made, draw places, see their tasks, and are closed.
ghost use Rattle.std.specs.List.{position};
ghost use Rattle.std.specs.Prelude.{◌≡◌, ◌≤◌, ◌^◌, slice_index};
ghost use Rattle.sched_core.specs.Bounds.{IsBounded};
ghost use Rattle.sched_core.specs.Core.{view_of};
ghost use Rattle.sched_core.specs.Step.{Takes, is_unmade, split, draw, drawn, see, seen, look_abort, abort, finish, look_done, closed, join, by_doing};

use crate::act::Act;
use crate::state::{Core, item_at, replace};
use crate::view::{Due, View};

impl Core {
    fn first_unmade(&self) -> Option<usize>
        ensures { result ≡ position is_unmade self.now.views }
    {
        self.views
            .as_slice()
            .iter()
            .position(|view| matches!(view, View::Unmade))
    }

    pub(crate) fn split(&mut self, seat: u32) -> bool
        ensures { Takes (split self.old (view_of self.old seat) (position is_unmade self.old.views)) self.old self.new result }
    {
        match (self.view(seat), self.first_unmade()) {
            (View::Idle, Some(unmade)) => {
                replace(&mut self.views, unmade, View::Idle);
                true
            }
            _ => false,
        }
    }

    /// The view of a seat that drew the place at head.
    fn drawn(&self) -> View
        ensures { result ≡ drawn self.now self.now.head }
    {
        if self.head < u64::from(self.graph.tasks) {
            View::Ticket(self.head as u32)
        } else {
            View::Gone
        }
    }

    pub(crate) fn draw(&mut self, seat: u32) -> bool
        requires { IsBounded self.old }
        ensures { Takes (draw self.old seat (view_of self.old seat)) self.old self.new result }
    {
        match self.view(seat) {
            View::Idle => {
                let drawn = self.drawn();
                self.head += 1;
                self.set_view(seat, drawn);
                true
            }
            _ => false,
        }
    }

    fn ring_at(&self, place: u32) -> u64
        ensures { result ≡ slice_index self.now.ring place }
    {
        item_at(&self.ring, place, 0)
    }

    pub(crate) fn see(&mut self, seat: u32) -> bool
        requires { IsBounded self.old }
        ensures { Takes (see self.old seat (view_of self.old seat)) self.old self.new result }
    {
        match self.view(seat) {
            View::Ticket(place) => {
                let word = self.ring_at(place);
                self.set_view(seat, seen(place, word));
                true
            }
            _ => false,
        }
    }

    pub(crate) fn look_abort(&mut self, seat: u32) -> bool
        ensures { Takes (look_abort self.old seat (view_of self.old seat)) self.old self.new result }
    {
        match self.view(seat) {
            View::Ticket(place) => {
                let view = if self.abort == 1 {
                    View::Halted
                } else {
                    View::Ticket(place)
                };
                self.set_view(seat, view);
                true
            }
            _ => false,
        }
    }

    pub(crate) fn abort(&mut self, seat: u32) -> bool
        ensures { Takes (abort self.old seat (view_of self.old seat)) self.old self.new result }
    {
        match self.view(seat) {
            View::Running {
                at: 0,
                due: Due::Nothing,
                ..
            } => {
                self.abort = 1;
                self.set_view(seat, View::Halted);
                true
            }
            _ => false,
        }
    }

    pub(crate) fn finish(&mut self, seat: u32) -> bool
        requires { IsBounded self.old }
        ensures { Takes (by_doing finish self.old seat) self.old self.new result }
    {
        let Some(doing) = self.doing(seat) else {
            return false;
        };
        match (doing.due, doing.act) {
            (Due::Nothing, Act::Finishes) => {
                self.done += 1;
                self.set_view(seat, View::Idle);
                true
            }
            _ => false,
        }
    }

    pub(crate) fn look_done(&self, seat: u32) -> bool
        ensures { Takes (look_done self.now (view_of self.now seat)) self.now self.now result }
    {
        matches!(
            self.view(seat),
            View::Idle | View::Gone | View::Halted | View::Closing { .. }
        )
    }

    /// How many seats that were gone, and how many that halted, a seat stands for that draws no more.
    fn closed(&self, seat: u32) -> Option<(u32, u32)>
        ensures { result ≡ closed (view_of self.now seat) }
    {
        match self.view(seat) {
            View::Gone => Some((1, 0)),
            View::Halted => Some((0, 1)),
            View::Closing { gone, halted } => Some((gone, halted)),
            _ => None,
        }
    }

    pub(crate) fn join(&mut self, seat: u32, other: u32) -> bool
        requires { IsBounded self.old }
        ensures { Takes (join self.old seat other) self.old self.new result }
    {
        if seat == other {
            return false;
        }
        match (self.closed(seat), self.closed(other)) {
            (Some(mine), Some(theirs)) => {
                let joined = View::Closing {
                    gone: mine.0 + theirs.0,
                    halted: mine.1 + theirs.1,
                };
                self.set_view(seat, joined);
                self.set_view(other, View::Spent);
                true
            }
            _ => false,
        }
    }
}

/// The view of a seat that looked at its place of the ring.
fn seen(place: u32, word: u64) -> View
    requires { word ≤ 2 ^ 32 }
    ensures { result ≡ seen place word }
{
    if word == 0 {
        View::Ticket(place)
    } else {
        View::Running {
            task: (word - 1) as u32,
            at: 0,
            due: Due::Nothing,
        }
    }
}
