use std::alloc::Global;
use std::mem;

/// Memory that is used again for each line and for the numbers of each row.
#[derive(Drop)]
pub(crate) struct Buffers {
    alloc: Global,
    pub(crate) line: Vec<u8>,
    pub(crate) numbers: Vec<i64>,
}

impl Buffers {
    /// Buffers that hold nothing yet.
    pub(crate) fn new(alloc: Global) -> Buffers {
        Buffers {
            alloc,
            line: Vec::new(alloc),
            numbers: Vec::new(alloc),
        }
    }

    /// The memory for the numbers of a row, which leaves the buffers.
    pub(crate) fn take_numbers(&mut self) -> Vec<i64> {
        mem::replace(&mut self.numbers, Vec::new(self.alloc))
    }
}
