ghost use Rattle.std.specs.Prelude.{◌≡◌};
ghost use Rattle.problem_types.specs.Lists.{variable_place, reduction_place};

use crate::Problem;

/// The place of the first declaration of a variable of this name, `None` where there is none.
pub fn var_of(p: &Problem, name: u32) -> Option<usize>
    ensures { result ≡ variable_place p.now name }
{
    p.vars.as_slice().iter().position(|v| v.name == name)
}

/// The place of the first declaration of a reduction of this name, `None` where there is none.
pub fn reduction_of(p: &Problem, name: u32) -> Option<usize>
    ensures { result ≡ reduction_place p.now name }
{
    p.reductions.as_slice().iter().position(|r| r.name == name)
}
