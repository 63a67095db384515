/// An index of the grid, by its coordinates.
#[derive(Clone, Copy, Debug, PartialEq, Eq)]
pub struct Index {
    pub x: i64,
    pub y: i64,
    pub z: i64,
}
