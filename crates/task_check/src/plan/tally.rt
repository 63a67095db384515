/// How many slots there are, and how many numbers they hold.
#[derive(Clone, Copy, Debug, PartialEq, Eq)]
pub(crate) struct Tally {
    pub(crate) slots: u64,
    pub(crate) numbers: u64,
}
