/// The kinds of atomic steps. Each is one step on one word.
#[derive(Clone, Copy, Debug, PartialEq, Eq)]
pub enum Kind {
    /// Makes the first seat that is not made yet.
    Split,
    /// Draws the next place of the ring.
    Draw,
    /// Looks whether a task stands at the place that it drew.
    See,
    /// Looks whether the step was aborted.
    LookAbort,
    /// Aborts the step, before the task has done anything.
    Abort,
    /// Counts the task as done.
    Finish,
    /// Looks how many tasks are done.
    LookDone,
    /// Joins the seat of this number to its own.
    Join(u32),
    /// Makes what the task writes readable.
    Publish,
    /// Lowers what a task that follows still waits for.
    LowerDep,
    /// Draws a place of the ring for a task that waits for nothing more.
    Place,
    /// Puts the task at this place.
    Put,
    /// Tries to take the turn of a slot.
    Open,
    /// Gives the turn back.
    Close,
    /// Lowers the count of a slot's uses.
    LowerUse,
    /// Marks a slot as empty for good.
    Scrub,
}

/// One atomic step by the seat of this number.
#[derive(Clone, Copy, Debug, PartialEq, Eq)]
pub struct Event {
    pub seat: u32,
    pub kind: Kind,
}
