ghost use Rattle.std.specs.Prelude.{◌≡◌, ◌+◌, ◌<◌, ◌^◌, IfSome, slice_set, slice_index_or};
ghost use Rattle.sched_core.specs.Core.{doing, view_of};
ghost use Rattle.sched_core.specs.Bounds.{IsBounded};
ghost use Rattle.sched_core.specs.Step.{with_view};

use crate::act::act_at;
use crate::view::{Doing, View};
use graph_types::Graph;
use sqlite_items::Items;

/// The words that all seats share in one step, and the view of each seat.
#[derive(Debug, Drop)]
pub struct Core {
    pub graph: Graph,
    /// How many places of the ring were drawn to run their tasks.
    pub head: u64,
    /// How many places of the ring were drawn to put tasks there.
    pub tail: u64,
    /// For each place 0, or the number of the task there and 1.
    pub ring: Items<u64>,
    /// For each task how many of those before it have not lowered this count yet.
    pub dep: Items<u64>,
    /// For each task 1 where what it writes can be read, else 0.
    pub published: Items<u64>,
    /// For each slot how many uses are left.
    pub left: Items<u64>,
    /// For each slot 0 where it is free, 1 where a seat has its turn, 2 where it is scrubbed.
    pub turn: Items<u64>,
    /// How many tasks are finished.
    pub done: u64,
    /// 1 where the step was aborted, else 0.
    pub abort: u64,
    /// For each slot whether its value stands in it and in no hand.
    pub home: Items<bool>,
    /// The view of each seat, by its number.
    pub views: Items<View>,
}

impl Core {
    /// The view of a seat; a number that no seat has is as good as spent.
    pub fn view(&self, seat: u32) -> View
        ensures { result ≡ view_of self.now seat }
    {
        item_at(&self.views, seat, View::Spent)
    }

    /// What the task of a seat does, where it runs one.
    pub fn doing(&self, seat: u32) -> Option<Doing>
        ensures { result ≡ doing self.now.graph (view_of self.now seat) }
    {
        match self.view(seat) {
            View::Running { task, at, due } => {
                let act = act_at(&self.graph, task, at)?;
                Some(Doing { task, at, due, act })
            }
            _ => None,
        }
    }

    /// `doing`, where scripts have places of 32 bits.
    #[tactic(auto, using(crate::proofs::Places::doing_room))]
    pub(crate) fn acting(&self, seat: u32) -> Option<Doing>
        requires { IsBounded self.now }
        ensures value { result ≡ doing self.now.graph (view_of self.now seat) }
        ensures room { IfSome result (λ d. d.at + 1 < 2 ^ 32) }
    {
        self.doing(seat)
    }

    pub(crate) fn set_view(&mut self, seat: u32, view: View)
        ensures { self.new ≡ with_view self.old seat view }
    {
        replace(&mut self.views, seat as usize, view);
    }
}

/// Replaces what stands at a place, if there is one.
pub(crate) fn replace<T: Drop>(items: &mut Items<T>, place: usize, item: T)
    ensures { items.new ≡ slice_set items.old place item }
{
    if place < items.len() {
        items.set(place, item);
    }
}

/// What stands at a place, or the default where nothing does.
#[tactic(auto, using(crate::proofs::Lists::missing_or))]
pub(crate) fn item_at<T: Copy>(items: &Items<T>, place: u32, default: T) -> T
    ensures { result ≡ slice_index_or items.now place default }
{
    match items.get(place as usize) {
        Some(item) => *item,
        None => default,
    }
}
