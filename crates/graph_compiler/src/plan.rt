//! Plans: what `compile` makes of a list of tasks.
use graph_types::Graph;
use sqlite_items::Items;

/// One of the two lists of tasks of a problem.
#[derive(Clone, Copy, Debug, PartialEq, Eq)]
pub enum ListKind {
    /// The list of step 0.
    Init,
    /// The list of each later step.
    Timestep,
}

/// What a plan depends on besides the problem.
#[derive(Clone, Copy, Debug, PartialEq, Eq)]
pub struct StepKind {
    pub list: ListKind,
    /// Whether a step follows, which reads what this one leaves.
    pub next: bool,
    /// Whether the dump shows the step.
    pub dump: bool,
}

/// What a slot holds.
#[derive(Clone, Copy, Debug, PartialEq, Eq)]
pub enum SlotKind {
    /// A variable on a patch, as the step before left it.
    Old,
    /// A variable on a patch, as a task of this step leaves it.
    New,
    /// The share of a patch in a reduction.
    Part,
    /// A reduction of this step.
    Number,
    /// A reduction, as the step before left it.
    OldNumber,
}

/// A slot. One that holds a whole reduction has material, level and patch 0.
#[derive(Clone, Copy, Debug, PartialEq, Eq)]
pub struct Slot {
    pub kind: SlotKind,
    /// The variable or the reduction, a place in the problem's names.
    pub name: u32,
    pub material: u32,
    pub level: u32,
    pub patch: u32,
    /// How many tasks of the list have modified the variable there, up to the one that writes the slot; 0 where the kind is not `New`.
    pub version: u32,
}

/// A detailed task: a task on a level, a material and a patch, or one that combines the parts of a reduction.
#[derive(Clone, Copy, Debug, PartialEq, Eq)]
pub struct Detail {
    /// The place of the task in its list.
    pub task: u32,
    /// The level, material and patch are 0 where parts are combined.
    pub level: u32,
    pub material: u32,
    pub patch: u32,
    /// Where parts are combined, the place of the line that reduces among those that the task writes.
    pub combine: Option<u32>,
}

/// A list of tasks, compiled: its graph, and what the numbers of the graph stand for.
#[derive(Debug, Drop)]
pub struct Plan {
    pub graph: Graph,
    /// The detailed tasks, by their numbers.
    pub tasks: Items<Detail>,
    /// The slots, by their numbers.
    pub slots: Items<Slot>,
}
