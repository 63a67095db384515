/// A row of indexes at which a kernel runs: those from `low` up to, and without, `high` along x, at one y and z.
#[derive(Clone, Copy, Debug, PartialEq, Eq)]
pub struct KernelRow {
    pub step: u32,
    pub material: u32,
    pub level: u32,
    pub y: i64,
    pub z: i64,
    pub low: i64,
    pub high: i64,
}
