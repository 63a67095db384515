/// Which limit a problem goes beyond. The limits of a plan are counted over the detailed tasks of one list, after all lines.
#[derive(Clone, Copy, Debug, PartialEq, Eq)]
pub enum Which {
    /// More than 65,535 steps.
    Steps,
    /// More than 65,535 steps from one dump to the next.
    Dump,
    /// More than 8 layers as the problem's limit of ghost data.
    Ghost,
    /// More than 8 materials.
    Materials,
    /// More than 4 levels.
    Levels,
    /// A bound of a level's box or of one of its patches above 4,096.
    Bounds,
    /// More than 1,024 patches on a level.
    Patches,
    /// More than 262,144 cells in a level's box.
    Cells,
    /// More than 64 variables.
    Variables,
    /// More than 16 reductions.
    Reductions,
    /// More than 64 tasks in a list.
    Tasks,
    /// More than 64 lines of a task, what it requires and what it writes together.
    Lines,
    /// More than 65,536 detailed tasks.
    Detailed,
    /// More than 262,144 slots.
    Slots,
    /// More than 2,097,152 pairs of a detailed task and a slot that it reads.
    Reads,
    /// More than 16,777,216 numbers in all slots together.
    Stored,
    /// More than 2,097,152 numbers that one detailed task gathers.
    Gathered,
}

/// What is wrong with a problem.
#[derive(Clone, Copy, Debug, PartialEq, Eq)]
pub enum FaultKind {
    /// The problem goes beyond a limit.
    TooLarge(Which),
    /// A level breaks a rule of the grid: its ratio, that its patches tile its box, or how its box and its patches lie on the next
    /// coarser level.
    BadGrid,
    /// A name is not declared as the variable or the reduction that its place wants, or a task runs on a material that is not there.
    Unknown,
    /// A second declaration of a name, a second task of a name in a list, a second requirement of the same, or a second `keep` of
    /// a name.
    Twice,
    /// A requirement asks for more layers of ghost data than the problem's limit.
    GhostTooWide,
    /// A kernel reads what its task does not require, at an offset out of range, or finely where the centrings differ.
    ReadBeyondGhost,
    /// A task runs on a level that is not there, or requires a variable of a coarser level on the coarsest or of a finer one on the
    /// finest.
    MissingLevel,
    /// What is required, modified or kept is not computed or reduced where it has to be: what is required of this step by an earlier
    /// task of the list, what is required of the step before by both lists.
    MissingCompute,
    /// A line computes again what its list has computed on a common material and level, one task both computes and modifies a
    /// variable, or a list reduces a name again.
    DoubleCompute,
    /// A line modifies what only later tasks compute on some material and level, what its task has modified before, or what its
    /// task requires of this step with ghost data or from a neighbouring level that it runs on.
    UnorderedModify,
}

/// A fault, and the line on which it stands.
#[derive(Clone, Copy, Debug, PartialEq, Eq)]
pub struct Fault {
    pub line: u32,
    pub kind: FaultKind,
}
