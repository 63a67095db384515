//! The steps of the graph: a task is published, and those that follow it are put into the ring when they wait for nothing more.
ghost use Rattle.std.specs.Prelude.{◌≡◌, ◌-◌, true, slice_index, slice_set};
ghost use Rattle.sched_core.specs.Bounds.{IsBounded};
ghost use Rattle.sched_core.specs.Step.{Takes, marked, publish, lower_dep, place, put, by_doing};

use crate::act::{Act, listed};
use crate::state::{Core, item_at, replace};
use crate::view::Due;
use sqlite_items::Items;

impl Core {
    pub(crate) fn publish(&mut self, seat: u32) -> bool
        requires { IsBounded self.old }
        ensures { Takes (by_doing publish self.old seat) self.old self.new result }
    {
        let Some(doing) = self.acting(seat) else {
            return false;
        };
        match (doing.due, doing.act) {
            (Due::Nothing, Act::Publishes) => {
                replace(&mut self.published, doing.task as usize, 1);
                let writes = listed(self.graph.writes.as_slice(), doing.task);
                mark(&mut self.home, writes);
                self.set_view(seat, doing.next_place());
                true
            }
            _ => false,
        }
    }

    pub(crate) fn lower_dep(&mut self, seat: u32) -> bool
        requires { IsBounded self.old }
        ensures { Takes (by_doing lower_dep self.old seat) self.old self.new result }
    {
        let Some(doing) = self.acting(seat) else {
            return false;
        };
        match (doing.due, doing.act) {
            (Due::Nothing, Act::LowersSuccessor(task)) => {
                let count = lower(&mut self.dep, task);
                self.set_view(seat, doing.lowered(count, Due::Place));
                true
            }
            _ => false,
        }
    }

    pub(crate) fn place(&mut self, seat: u32) -> bool
        requires { IsBounded self.old }
        ensures { Takes (by_doing place self.old seat) self.old self.new result }
    {
        let Some(doing) = self.doing(seat) else {
            return false;
        };
        match (doing.due, doing.act) {
            (Due::Place, Act::LowersSuccessor(_)) => {
                let place = self.tail as u32;
                self.tail += 1;
                self.set_view(seat, doing.still_due(Due::Put(place)));
                true
            }
            _ => false,
        }
    }

    pub(crate) fn put(&mut self, seat: u32) -> bool
        requires { IsBounded self.old }
        ensures { Takes (by_doing put self.old seat) self.old self.new result }
    {
        let Some(doing) = self.acting(seat) else {
            return false;
        };
        match (doing.due, doing.act) {
            (Due::Put(place), Act::LowersSuccessor(task)) => {
                replace(&mut self.ring, place as usize, u64::from(task) + 1);
                self.set_view(seat, doing.next_place());
                true
            }
            _ => false,
        }
    }
}

/// Marks each of the slots.
fn mark(marks: &mut Items<bool>, slots: &[u32])
    ensures { marks.new ≡ marked marks.old slots.now true }
{
    for slot in slots {
        replace(marks, *slot as usize, true);
    }
}

/// Lowers a count by 1, and answers what it was.
pub(crate) fn lower(counts: &mut Items<u64>, at: u32) -> u64
    ensures count { result ≡ slice_index counts.old at }
    ensures lowered { counts.new ≡ slice_set counts.old at (slice_index counts.old at - 1) }
{
    let count = item_at(counts, at, 0);
    replace(counts, at as usize, count.saturating_sub(1));
    count
}
