use crate::{Centring, Expr, Name, Store};
use sqlite_items::Items;

/// A number and the line that gives it.
#[derive(Clone, Copy, Debug, PartialEq, Eq)]
pub struct Num {
    pub line: u32,
    pub value: u64,
}

/// A box of cells, half open on each axis: x, y, z of its low corner and of its high corner.
#[derive(Clone, Copy, Debug, PartialEq, Eq)]
pub struct BoxLine {
    pub line: u32,
    pub lo: [u64; 3],
    pub hi: [u64; 3],
}

/// A level of the grid, with its refinement ratio to the next coarser one.
#[derive(Debug, Drop)]
pub struct Level {
    pub line: u32,
    pub ratio: u64,
    pub boxes: Items<BoxLine>,
    pub patches: Items<BoxLine>,
}

/// A variable, and the number that a read outside its index space gives.
#[derive(Clone, Copy, Debug, PartialEq, Eq)]
pub struct Var {
    pub line: u32,
    /// A place in the problem's names, as each name below.
    pub name: u32,
    pub centring: Centring,
    pub outside: i64,
}

/// How a reduction combines its numbers.
#[derive(Clone, Copy, Debug, PartialEq, Eq)]
pub enum Fold {
    Sum,
    Min,
    Max,
}

#[derive(Clone, Copy, Debug, PartialEq, Eq)]
pub struct Reduction {
    pub line: u32,
    pub name: u32,
    pub fold: Fold,
}

/// Around what the ghost data of a requirement lie.
#[derive(Clone, Copy, Debug, PartialEq, Eq)]
pub enum GhostKind {
    None,
    Cells,
    Nodes,
    FaceX,
    FaceY,
    FaceZ,
}

/// How many layers of ghost data are required: 0 for `GhostKind::None`, else at least 1.
#[derive(Clone, Copy, Debug, PartialEq, Eq)]
pub struct Ghost {
    pub kind: GhostKind,
    pub n: u64,
}

/// What a task requires: a variable on its own level, on the next coarser or the next finer one, or a
/// reduction.
#[derive(Clone, Copy, Debug, PartialEq, Eq)]
pub enum What {
    Same { var: u32, layers: Ghost },
    Coarse { var: u32, layers: Ghost },
    Fine { var: u32 },
    Number { name: u32 },
}

#[derive(Clone, Copy, Debug, PartialEq, Eq)]
pub struct Require {
    pub line: u32,
    pub store: Store,
    pub what: What,
}

#[derive(Clone, Copy, Debug, PartialEq, Eq)]
pub enum WriteKind {
    Computes,
    Modifies,
    Reduces(Centring),
}

/// What a task writes, by the expression of its kernel.
#[derive(Debug, Drop)]
pub struct Write {
    pub line: u32,
    pub kind: WriteKind,
    pub name: u32,
    pub expr: Expr,
}

/// A task, and the levels and materials on which it runs.
#[derive(Debug, Drop)]
pub struct Task {
    pub line: u32,
    pub name: u32,
    pub levels: Items<u64>,
    pub materials: Items<u64>,
    pub requirements: Items<Require>,
    pub writes: Items<Write>,
}

/// A variable or a reduction that the dump shows.
#[derive(Clone, Copy, Debug, PartialEq, Eq)]
pub struct Keep {
    pub line: u32,
    pub name: u32,
}

/// A whole problem, each statement with its line. `docs/language.md` has its text.
#[derive(Debug, Drop)]
pub struct Problem {
    pub names: Items<Name>,
    pub version: Num,
    pub steps: Num,
    pub dump: Num,
    pub ghost_limit: Num,
    pub materials: Num,
    pub levels: Items<Level>,
    pub vars: Items<Var>,
    pub reductions: Items<Reduction>,
    pub init_line: u32,
    pub init: Items<Task>,
    pub timestep_line: u32,
    pub timestep: Items<Task>,
    pub keeps: Items<Keep>,
    pub end_line: u32,
}
