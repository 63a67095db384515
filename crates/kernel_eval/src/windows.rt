use crate::Part;
use kernel_ast::Store;

/// The number of a reduction.
#[derive(Clone, Copy, Debug, PartialEq, Eq)]
pub struct Given {
    pub store: Store,
    /// A place in the problem's names.
    pub name: u32,
    pub number: i64,
}

/// All that a task sees on a patch, and where it runs. Of parts of the same store, form and name the first one counts, and so of numbers.
#[derive(Debug, Drop)]
pub struct Windows {
    pub parts: Vec<Part>,
    pub numbers: Vec<Given>,
    pub level: u32,
    pub material: u32,
    /// The number of the step, 0 in the init list.
    pub step: u32,
}
