//! Laws on steps: they keep sound states.
ghost use Rattle.sched_core.specs.Laws.{EachKindKeepsSound, StepsKeepSound, ReachedAreSound};

/// A step of each kind leads from a sound state to a sound state.
pub fn each_kind_keeps_sound()
    ensures { EachKindKeepsSound }
{}

/// Steps in any order, by any seats, lead from a sound state to a sound state.
pub fn steps_keep_sound()
    ensures { StepsKeepSound }
{}

/// What steps reach from the start, by a valid graph and 1 to 64 seats, is sound.
pub fn reached_are_sound()
    ensures { ReachedAreSound }
{}
