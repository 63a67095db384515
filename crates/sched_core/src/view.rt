ghost use Rattle.std.specs.Prelude.{◌≡◌, ◌+◌, ◌<◌, ◌^◌};
ghost use Rattle.sched_core.specs.Step.{next_place, still_due, lowered};

use crate::act::Act;

/// What a task that lowered a count last still owes at that place of its script.
#[derive(Clone, Copy, Debug, PartialEq, Eq)]
pub enum Due {
    Nothing,
    /// To scrub the slot.
    Scrub,
    /// To draw a place of the ring for the task that follows.
    Place,
    /// To put the task that follows at this place of the ring.
    Put(u32),
}

/// What a seat knows of itself.
#[derive(Clone, Copy, Debug, PartialEq, Eq)]
pub enum View {
    /// No worker has this seat yet.
    Unmade,
    Idle,
    /// It drew this place of the ring and waits for its task.
    Ticket(u32),
    /// It runs a task, and stands at a place of its script, counted from 0.
    Running { task: u32, at: u32, due: Due },
    /// It drew a place behind all tasks.
    Gone,
    /// It stopped, or was stopped.
    Halted,
    /// It is closed with others: so many of them were gone, and so many halted.
    Closing { gone: u32, halted: u32 },
    /// It was joined to another seat.
    Spent,
}

/// Where a running seat stands, and what the task does there.
#[derive(Clone, Copy, Debug, PartialEq, Eq)]
pub struct Doing {
    pub task: u32,
    pub at: u32,
    pub due: Due,
    pub act: Act,
}

impl Doing {
    /// The view behind this place of the script.
    pub(crate) fn next_place(self) -> View
        requires { self.at + 1 < 2 ^ 32 }
        ensures { result ≡ next_place self }
    {
        View::Running {
            task: self.task,
            at: self.at + 1,
            due: Due::Nothing,
        }
    }

    /// The view at this place with something due.
    pub(crate) fn still_due(self, due: Due) -> View
        ensures { result ≡ still_due self due }
    {
        View::Running {
            task: self.task,
            at: self.at,
            due,
        }
    }

    /// The view behind the lowering of a count.
    pub(crate) fn lowered(self, count: u64, due: Due) -> View
        requires { self.at + 1 < 2 ^ 32 }
        ensures { result ≡ lowered self count due }
    {
        if count == 1 {
            self.still_due(due)
        } else {
            self.next_place()
        }
    }
}
