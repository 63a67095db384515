//! Problems as data: the grid, the variables, and the tasks of the two lists with their kernels.
#![tactic(auto)]

mod ascending;
mod boxes;
mod copying;
mod form;
mod lines;
mod lookup;
mod name;
mod problem;

pub use ascending::is_ascending;
pub use boxes::{cells, level_box};
pub use copying::copy;
pub use form::{are_layers_in_form, in_form};
pub use kernel_ast::{Expr, How, Op, Read, Store};
pub use lookup::{reduction_of, var_of};
pub use name::{Name, NoMemory};
pub use problem::{
    BoxLine, Fold, Ghost, GhostKind, Keep, Level, Num, Problem, Reduction, Require, Task, Var,
    What, Write, WriteKind,
};
pub use uts_geom::Centring;
