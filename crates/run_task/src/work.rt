//! What detailed tasks have gathered so far, and the room for what they write.
use field_box::Value;
use kernel_eval::Windows;
use problem_types::Fold;

/// Where a detailed task runs: the task at a place of the list of a step, on a patch of a level, for a material.
#[derive(Clone, Copy, Debug, PartialEq, Eq)]
pub struct Site {
    pub step: u32,
    pub task: u32,
    pub level: u32,
    pub material: u32,
    pub patch: u32,
}

/// What a detailed task on a patch has gathered.
#[derive(Debug, Drop)]
pub struct PatchWork {
    /// What its kernels see.
    pub windows: Windows,
    /// A value for each line of the task, in order: a field on what the patch owns, or a number.
    pub outputs: Vec<Value>,
    /// Room for the rows of kernels.
    pub scratch: Vec<i64>,
}

/// What a detailed task that combines the parts of a reduction has gathered.
#[derive(Debug, Drop)]
pub struct CombiningWork {
    pub fold: Fold,
    /// The parts so far, combined.
    pub number: i64,
    /// Room for the one number.
    pub outputs: Vec<Value>,
}

/// What a detailed task has gathered, with room for what it writes.
#[derive(Debug, Drop)]
pub enum Work {
    Patch(PatchWork),
    Combining(CombiningWork),
}
