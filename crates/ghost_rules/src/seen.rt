use problem_types::Ghost;

/// What a kernel sees of a variable.
#[derive(Clone, Copy, Debug, PartialEq, Eq)]
pub enum Seen {
    /// The ghost window of its patch.
    Ghosted(Ghost),
    /// What its patch owns: its task modifies the variable.
    Own,
}
