//! Which statement may follow which.
use statement_parse::StatementKind;

/// The two lists of tasks.
#[derive(Clone, Copy, Debug, PartialEq, Eq)]
pub enum TaskList {
    Init,
    Timestep,
}

/// What was said last.
#[derive(Clone, Copy, Debug, PartialEq, Eq)]
pub enum Place {
    Start,
    Version,
    Steps,
    Dump,
    Ghost,
    Materials,
    Level,
    Box,
    Patch,
    Var,
    Reduction,
    /// `init` or `timestep`.
    Opened(TaskList),
    /// The line of a task, or what it requires.
    Task(TaskList),
    /// What a task writes.
    Write(TaskList),
    Keep,
    End,
}

impl Place {
    ghost use Rattle.std.specs.Prelude.{◌≡◌, ◌↔◌, IsTrue};
    ghost use Rattle.problem_file.specs.Order.{next_place};

    /// Whether nothing may follow.
    pub(crate) fn is_end(self) -> bool
        ensures { IsTrue result ↔ (self ≡ Place.End) }
    {
        matches!(self, Place::End)
    }

    /// The place behind a statement of this kind, where it may come here.
    pub(crate) fn next(self, kind: StatementKind) -> Option<Place>
        ensures { result ≡ next_place self kind }
    {
        match (self, kind) {
            (Place::Start, StatementKind::Version) => Some(Place::Version),
            (Place::Version, StatementKind::Steps) => Some(Place::Steps),
            (Place::Steps, StatementKind::Dump) => Some(Place::Dump),
            (Place::Dump, StatementKind::Ghost) => Some(Place::Ghost),
            (Place::Ghost, StatementKind::Materials) => Some(Place::Materials),
            (Place::Materials | Place::Patch, StatementKind::Level) => Some(Place::Level),
            (Place::Level, StatementKind::Box) => Some(Place::Box),
            (Place::Box | Place::Patch, StatementKind::Patch) => Some(Place::Patch),
            (Place::Patch | Place::Var, StatementKind::Var) => Some(Place::Var),
            (Place::Patch | Place::Var | Place::Reduction, StatementKind::Reduction) => {
                Some(Place::Reduction)
            }
            (Place::Patch | Place::Var | Place::Reduction, StatementKind::Init) => {
                Some(Place::Opened(TaskList::Init))
            }
            (Place::Opened(tasks) | Place::Write(tasks), StatementKind::Task) => {
                Some(Place::Task(tasks))
            }
            (Place::Task(tasks), StatementKind::Require) => Some(Place::Task(tasks)),
            (Place::Task(tasks) | Place::Write(tasks), StatementKind::Write) => {
                Some(Place::Write(tasks))
            }
            (
                Place::Opened(TaskList::Init) | Place::Write(TaskList::Init),
                StatementKind::Timestep,
            ) => Some(Place::Opened(TaskList::Timestep)),
            (
                Place::Opened(TaskList::Timestep) | Place::Write(TaskList::Timestep) | Place::Keep,
                StatementKind::Keep,
            ) => Some(Place::Keep),
            (
                Place::Opened(TaskList::Timestep) | Place::Write(TaskList::Timestep) | Place::Keep,
                StatementKind::End,
            ) => Some(Place::End),
            _ => None,
        }
    }
}
