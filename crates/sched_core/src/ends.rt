//! Laws on the end of a step, which follow from the invariant.
ghost use Rattle.sched_core.specs.Ends.{DoneLeavesTheKept, DrawnIsDone, AllGoneIsDone};

/// Where all tasks are done, the values that are home are those of the slots that are kept.
pub fn done_leaves_the_kept()
    ensures { DoneLeavesTheKept }
{}

/// Where all places are drawn, no seat is at work and none halted, all tasks are done.
pub fn drawn_is_done()
    ensures { DrawnIsDone }
{}

/// Where one seat is closed with all others and each was gone, all tasks are done.
pub fn all_gone_is_done()
    ensures { AllGoneIsDone }
{}
