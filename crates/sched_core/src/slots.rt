//! The steps of slots: a reader opens and closes one, and the last of its users scrubs it.
ghost use Rattle.std.specs.Prelude.{◌≡◌, ◌+◌, ◌<◌, ◌^◌};
ghost use Rattle.sched_core.specs.Bounds.{IsBounded};
ghost use Rattle.sched_core.specs.Step.{Takes, turned, open_slot, close, lower_use, scrub, by_doing};

use crate::act::Act;
use crate::following::lower;
use crate::state::{Core, item_at, replace};
use crate::view::{Doing, Due};

impl Core {
    /// The slot has this turn, its value is there or not, and the seat goes on.
    fn turn_slot(&mut self, seat: u32, doing: Doing, slot: u32, turn: u64, home: bool)
        requires { doing.at + 1 < 2 ^ 32 }
        ensures { self.new ≡ turned self.old seat doing slot turn home }
    {
        replace(&mut self.turn, slot as usize, turn);
        replace(&mut self.home, slot as usize, home);
        self.set_view(seat, doing.next_place());
    }

    pub(crate) fn open_slot(&mut self, seat: u32) -> bool
        requires { IsBounded self.old }
        ensures { Takes (by_doing open_slot self.old seat) self.old self.new result }
    {
        let Some(doing) = self.acting(seat) else {
            return false;
        };
        match (doing.due, doing.act) {
            (Due::Nothing, Act::Opens(slot)) => {
                if item_at(&self.turn, slot, 0) == 0 {
                    self.turn_slot(seat, doing, slot, 1, false);
                }
                true
            }
            _ => false,
        }
    }

    pub(crate) fn close(&mut self, seat: u32) -> bool
        requires { IsBounded self.old }
        ensures { Takes (by_doing close self.old seat) self.old self.new result }
    {
        let Some(doing) = self.acting(seat) else {
            return false;
        };
        match (doing.due, doing.act) {
            (Due::Nothing, Act::Closes(slot)) => {
                self.turn_slot(seat, doing, slot, 0, true);
                true
            }
            _ => false,
        }
    }

    pub(crate) fn lower_use(&mut self, seat: u32) -> bool
        requires { IsBounded self.old }
        ensures { Takes (by_doing lower_use self.old seat) self.old self.new result }
    {
        let Some(doing) = self.acting(seat) else {
            return false;
        };
        match (doing.due, doing.act) {
            (Due::Nothing, Act::LowersUse(slot)) => {
                let count = lower(&mut self.left, slot);
                self.set_view(seat, doing.lowered(count, Due::Scrub));
                true
            }
            _ => false,
        }
    }

    pub(crate) fn scrub(&mut self, seat: u32) -> bool
        requires { IsBounded self.old }
        ensures { Takes (by_doing scrub self.old seat) self.old self.new result }
    {
        let Some(doing) = self.acting(seat) else {
            return false;
        };
        match (doing.due, doing.act) {
            (Due::Scrub, Act::LowersUse(slot)) => {
                self.turn_slot(seat, doing, slot, 2, false);
                true
            }
            _ => false,
        }
    }
}
