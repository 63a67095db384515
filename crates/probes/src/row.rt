use crate::Numbers;

/// A row of a field, as the dump shows it.
#[derive(Debug, Drop)]
pub struct Row {
    pub step: u32,
    /// The place of the variable's `keep` line among these lines.
    pub keep: u32,
    pub material: u32,
    pub level: u32,
    pub y: i64,
    pub z: i64,
    /// The numbers by ascending x.
    pub values: Numbers,
}
