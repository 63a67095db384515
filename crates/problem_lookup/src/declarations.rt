//! What names are declared as.
ghost use Rattle.std.specs.Prelude.{◌≡◌};
ghost use Rattle.problem_types.specs.Lists.{variable_named, reduction_named, outside_of, centring_of, fold_of};

use problem_types::{Centring, Fold, Problem, Reduction, Var};

/// The first declaration of a variable of this name.
fn variable(p: &Problem, name: u32) -> Option<Var>
    ensures { result ≡ variable_named p.now name }
{
    p.vars.as_slice().iter().copied().find(|v| v.name == name)
}

/// The centring of a variable; cells where none is declared.
pub fn centring_of(p: &Problem, name: u32) -> Centring
    ensures { result ≡ centring_of p.now name }
{
    match variable(p, name) {
        Some(v) => v.centring,
        None => Centring::Cell,
    }
}

/// The number of a variable outside its index space; 0 where none is declared.
pub fn outside_of(p: &Problem, name: u32) -> i64
    ensures { result ≡ outside_of p.now name }
{
    match variable(p, name) {
        Some(v) => v.outside,
        None => 0,
    }
}

/// The first declaration of a reduction of this name.
fn reduction(p: &Problem, name: u32) -> Option<Reduction>
    ensures { result ≡ reduction_named p.now name }
{
    p.reductions
        .as_slice()
        .iter()
        .copied()
        .find(|q| q.name == name)
}

/// How a reduction combines its numbers; as a sum where none is declared.
pub fn fold_of(p: &Problem, name: u32) -> Fold
    ensures { result ≡ fold_of p.now name }
{
    match reduction(p, name) {
        Some(q) => q.fold,
        None => Fold::Sum,
    }
}
