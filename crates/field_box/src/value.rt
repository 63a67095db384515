use crate::Field;

/// What a task reads or writes: the field of a variable, or the number of a reduction.
#[derive(Debug, Drop)]
pub enum Value {
    Grid(Field),
    Number(i64),
}
