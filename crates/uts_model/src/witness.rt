//! The number of a variable at an index, and of a reduction: witnesses for tests.
ghost use Rattle.std.specs.Prelude.{◌≡◌, ◌<◌, ◌≤◌, IfSome, length, slice_get};
ghost use Rattle.uts_model.specs.WholeField.{field_at, reduction_at, task_count};
ghost use Rattle.uts_model.specs.declared.moments.Moment.TheVariants.{InStep};

use crate::lookups::variable_name;
use crate::moments::{Moment, Site};
use crate::numbers::{field, reduction};
use problem_lookup::task_list;
use problem_types::Problem;
use task_check::{Checked, bounds};
use uts_geom::Index;

/// The end of a step.
fn end_of(problem: &Problem, step: u32) -> Moment
    requires { task_count problem.now step ≤ 64 }
    ensures { result ≡ InStep step (task_count problem.now step) }
{
    Moment::InStep {
        step,
        tasks: task_list(problem, step).len(),
    }
}

/// The number of a variable, by its place among the declarations, at the end of a step: on a material and a level, at any index. It is
/// found by plain recursion, each time anew, so it is slow: for tests of small problems.
pub fn at_index(c: &Checked, step: u32, var: u32, material: u32, level: u32, i: Index) -> i64
    requires few_steps { step ≤ 3 }
    requires in_run { step ≤ c.now.steps.value }
    requires declared { var < length c.now.vars }
    requires known_material { material < c.now.materials.value }
    requires known_level { level < length c.now.levels }
    ensures { IfSome (slice_get c.now.vars var)
        (λ v. result ≡ field_at c.now step (task_count c.now step) v.name material level i) }
{
    bounds(c);
    let problem = c.problem();
    let site = Site {
        material,
        level,
        index: i,
    };
    field(
        problem,
        end_of(problem, step),
        variable_name(problem, var),
        site,
    )
}

/// The number of a reduction, by its name's place among the names, at the end of a step; 0 where no task reduces it. It is found in the
/// same way.
pub fn reduction_at_end(c: &Checked, step: u32, name: u32) -> i64
    requires few_steps { step ≤ 3 }
    requires in_run { step ≤ c.now.steps.value }
    ensures { result ≡ reduction_at c.now step (task_count c.now step) name }
{
    bounds(c);
    let problem = c.problem();
    reduction(problem, end_of(problem, step), name)
}
