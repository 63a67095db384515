//! What a task writes, before it is put into the warehouse.
use sqlite_items::Items;

/// The numbers that a task gives a variable on a material and a level, one for each index of the index space there, x fastest,
/// then y, then z.
#[derive(Debug, Drop)]
pub(crate) struct WrittenField {
    pub(crate) name: u32,
    pub(crate) material: u32,
    pub(crate) level: u32,
    pub(crate) numbers: Items<i64>,
}

/// The number that a task gives a reduction.
#[derive(Clone, Copy, Debug, PartialEq, Eq)]
pub(crate) struct WrittenNumber {
    pub(crate) name: u32,
    pub(crate) number: i64,
}
