/// What a task sees of a variable on an axis, besides the patch itself.
#[derive(Clone, Copy, Debug, PartialEq, Eq)]
pub enum Along {
    /// No ghost data.
    Nothing,
    /// Layers of what is interval-like on the axis, as cells are.
    Intervals(u64),
    /// Layers of what is point-like on the axis, as nodes are.
    Points(u64),
    /// What the patch owns, and nothing else.
    Own,
}
