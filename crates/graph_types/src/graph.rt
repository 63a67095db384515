use sqlite_items::Items;

/// The task graph of a step, as numbers: detailed tasks and slots, each numbered from 0.
#[derive(Debug, Drop)]
pub struct Graph {
    /// How many detailed tasks there are.
    pub tasks: u32,
    /// The slots below this number hold what stood at the end of the step before. No task writes them.
    pub old: u32,
    /// How many slots there are, the old ones among them.
    pub slots: u32,
    /// For each task the slots that it reads, ascending.
    pub reads: Items<Items<u32>>,
    /// For each task the slots that it writes, ascending.
    pub writes: Items<Items<u32>>,
    /// For each task those that read a slot which it writes, ascending.
    pub successors: Items<Items<u32>>,
    /// For each task how many tasks it is a successor of.
    pub predecessors: Items<u32>,
    /// For each slot how many tasks read it, 1 more where a task writes it, and 1 more where it is kept.
    pub uses: Items<u32>,
    /// For each slot whether it stays after the step.
    pub kept: Items<bool>,
}
