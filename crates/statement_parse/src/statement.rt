ghost use Rattle.std.specs.Prelude.{◌≡◌};
ghost use Rattle.statement_parse.specs.Kinds.{kind_of};

use problem_types::{Centring, Expr, Fold, Store, What, WriteKind};
use sqlite_items::Items;

/// The low and the high corner of a box of cells: x, y and z, half open on each axis.
#[derive(Clone, Copy, Debug, PartialEq, Eq)]
pub struct Corners {
    pub lo: [u64; 3],
    pub hi: [u64; 3],
}

/// What a line of a problem text says. Each name is its place among the names of the text.
/// `docs/language.md` has the spelling.
#[derive(Debug, Drop)]
pub enum Statement {
    /// `problem` and the version of the language.
    Version(u64),
    Steps(u64),
    Dump(u64),
    Ghost(u64),
    Materials(u64),
    /// A level, with its refinement ratio.
    Level(u64),
    Box(Corners),
    Patch(Corners),
    Var {
        name: u32,
        centring: Centring,
        outside: i64,
    },
    Reduction {
        name: u32,
        fold: Fold,
    },
    Init,
    /// The line that begins a task: its name, and the levels and materials on which it runs.
    Task {
        name: u32,
        levels: Items<u64>,
        materials: Items<u64>,
    },
    Require {
        store: Store,
        what: What,
    },
    Write {
        kind: WriteKind,
        name: u32,
        expr: Expr,
    },
    Timestep,
    Keep(u32),
    End,
}

/// Which statement it is.
#[derive(Clone, Copy, Debug, PartialEq, Eq)]
pub enum StatementKind {
    Version,
    Steps,
    Dump,
    Ghost,
    Materials,
    Level,
    Box,
    Patch,
    Var,
    Reduction,
    Init,
    Task,
    Require,
    Write,
    Timestep,
    Keep,
    End,
}

impl Statement {
    /// Which statement it is.
    pub fn kind(&self) -> StatementKind
        ensures { result ≡ kind_of self.now }
    {
        match self {
            Statement::Version(_) => StatementKind::Version,
            Statement::Steps(_) => StatementKind::Steps,
            Statement::Dump(_) => StatementKind::Dump,
            Statement::Ghost(_) => StatementKind::Ghost,
            Statement::Materials(_) => StatementKind::Materials,
            Statement::Level(_) => StatementKind::Level,
            Statement::Box(_) => StatementKind::Box,
            Statement::Patch(_) => StatementKind::Patch,
            Statement::Var { .. } => StatementKind::Var,
            Statement::Reduction { .. } => StatementKind::Reduction,
            Statement::Init => StatementKind::Init,
            Statement::Task { .. } => StatementKind::Task,
            Statement::Require { .. } => StatementKind::Require,
            Statement::Write { .. } => StatementKind::Write,
            Statement::Timestep => StatementKind::Timestep,
            Statement::Keep(_) => StatementKind::Keep,
            Statement::End => StatementKind::End,
        }
    }
}
