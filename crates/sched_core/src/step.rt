ghost use Rattle.std.specs.Prelude.{◌≡◌, ◌↔◌, IsTrue, IsSome};
ghost use Rattle.sched_core.specs.Bounds.{IsBounded};
ghost use Rattle.sched_core.specs.Sound.{IsSound};
ghost use Rattle.sched_core.specs.Step.{Takes, next_by, next_state, state_after};

use crate::event::{Event, Kind};
use crate::state::Core;

impl Core {
    fn step_by(&mut self, seat: u32, kind: Kind) -> bool
        requires { IsBounded self.old }
        ensures { Takes (next_by self.old seat kind) self.old self.new result }
    {
        match kind {
            Kind::Split => self.split(seat),
            Kind::Draw => self.draw(seat),
            Kind::See => self.see(seat),
            Kind::LookAbort => self.look_abort(seat),
            Kind::Abort => self.abort(seat),
            Kind::Finish => self.finish(seat),
            Kind::LookDone => self.look_done(seat),
            Kind::Join(other) => self.join(seat, other),
            Kind::Publish => self.publish(seat),
            Kind::LowerDep => self.lower_dep(seat),
            Kind::Place => self.place(seat),
            Kind::Put => self.put(seat),
            Kind::Open => self.open_slot(seat),
            Kind::Close => self.close(seat),
            Kind::LowerUse => self.lower_use(seat),
            Kind::Scrub => self.scrub(seat),
        }
    }

    /// Takes one step, where it is enabled, and answers whether it is.
    #[tactic(auto, using(crate::proofs::Bounded::bounded), unfolding(crate::specs::Step::next_state))]
    pub fn step(&mut self, event: Event) -> bool
        requires { IsSound self.old }
        ensures enabled { IsTrue result ↔ IsSome (next_state self.old event) }
        ensures state { self.new ≡ state_after self.old event }
        ensures sound { IsSound self.new }
    {
        self.step_by(event.seat, event.kind)
    }
}
