//! Cores at their start, and steps that seats take.
ghost use Rattle.std.specs.Prelude.{IfOk};
ghost use Rattle.sched_core.specs.Sound.{IsSound};

use crate::graphs::{Numbers, graph};
use graph_types::valid;
use sched_core::{Core, Event, Kind};
use std::alloc::Global;
use std::test::Fail;

/// The core at its start, with 1 to 64 seats.
pub(crate) fn started(alloc: Global, n: Numbers, seats: u32) -> Result<Core, Fail>
    ensures { IfOk result IsSound }
{
    let graph = graph(alloc, n)?;
    if seats < 1 || seats > 64 || !valid(alloc, &graph)? {
        return Err(Fail::new("the graph is not valid"));
    }
    Ok(Core::start(alloc, graph, seats)?)
}

/// Whether the seat took a step of this kind.
pub(crate) fn takes(core: &mut Core, seat: u32, kind: Kind) -> bool
    requires { IsSound core.old }
    ensures { IsSound core.new }
{
    core.step(Event { seat, kind })
}

/// How many of the steps the seat took, one after the other.
pub(crate) fn taken(core: &mut Core, seat: u32, kinds: &[Kind]) -> usize
    requires { IsSound core.old }
    ensures { IsSound core.new }
{
    let mut count = 0;
    for kind in kinds {
        count += usize::from(takes(core, seat, *kind));
    }
    count
}

/// Steps that one seat takes, one after the other.
pub(crate) struct Turn {
    pub(crate) seat: u32,
    pub(crate) kinds: &'static [Kind],
}

/// Takes the turns one after the other, and answers whether each of their steps was enabled.
pub(crate) fn has_taken(core: &mut Core, turns: &[Turn]) -> bool
    requires { IsSound core.old }
    ensures { IsSound core.new }
{
    for turn in turns {
        if taken(core, turn.seat, turn.kinds) < turn.kinds.len() {
            return false;
        }
    }
    true
}
