//! What variables are declared as, by name.
ghost use Rattle.std.specs.Prelude.{◌≡◌, IfOk};
ghost use Rattle.whole_fields.specs.Shapes.{IsShapesOf, no_shape, shape_of, shape_named};

use crate::NoMemory;
use problem_lookup::{centring_of, outside_of};
use problem_types::Problem;
use sqlite_items::Items;
use std::alloc::Global;
use task_check::{Checked, bounds};
use uts_geom::Centring;

/// The centring of a variable, and its number outside its index space.
#[derive(Clone, Copy, Debug, PartialEq, Eq)]
pub struct Shape {
    pub centring: Centring,
    pub outside: i64,
}

/// The shapes of a problem's variables, looked up once a run.
#[derive(Debug, Drop)]
pub struct Shapes {
    /// By name; a name that no variable has counts as one of cells with 0 outside.
    pub(crate) shapes: Items<Shape>,
}

/// What stands for a name that no variable has.
fn no_shape() -> Shape
    ensures { result ≡ no_shape }
{
    Shape {
        centring: Centring::Cell,
        outside: 0,
    }
}

/// The shape that a name is declared with.
fn declared(p: &Problem, name: u32) -> Shape
    ensures { result ≡ shape_of p.now name }
{
    Shape {
        centring: centring_of(p, name),
        outside: outside_of(p, name),
    }
}

impl Shapes {
    /// The shapes of a problem.
    pub fn of(alloc: Global, c: &Checked) -> Result<Shapes, NoMemory>
        ensures { IfOk result (IsShapesOf c.now) }
    {
        bounds(c);
        let p = c.problem();
        let mut shapes = Items::new(alloc);
        for name in 0..p.names.len() {
            shapes.push(declared(p, name as u32))?;
        }
        Ok(Shapes { shapes })
    }

    /// The shape of a name.
    pub(crate) fn shape(&self, name: u32) -> Shape
        ensures { result ≡ shape_named self.now name }
    {
        match self.shapes.get(name as usize) {
            Some(shape) => *shape,
            None => no_shape(),
        }
    }
}
