//! What a problem declares, and what its tasks write.
ghost use Rattle.std.specs.Prelude.{◌≡◌, ◌<◌, IfSome, length, slice_get};
ghost use Rattle.std.specs.Option.{option_copied};
ghost use Rattle.uts_model.specs.WholeField.{reduced_centring};
ghost use Rattle.uts_model.specs.Kernels.{field_kernel};

use crate::moments::Site;
use problem_lookup::field_write;
use problem_types::{Centring, Expr, Problem, Task, WriteKind};
use task_rules::runs_on;

/// The name of a variable by its place among the declarations.
pub(crate) fn variable_name(problem: &Problem, place: u32) -> u32
    requires { place < length problem.now.vars }
    ensures { IfSome (slice_get problem.now.vars place) (λ v. result ≡ v.name) }
{
    problem.vars.as_slice()[place as usize].name
}

/// The kernel of the task for the variable at a site, if the task runs there and has one.
pub(crate) fn field_kernel<'a>(task: &'a Task, name: u32, site: &Site) -> Option<&'a Expr>
    ensures { option_copied result ≡ field_kernel task.now name site.now.material site.now.level }
{
    if !runs_on(task, u64::from(site.material), u64::from(site.level)) {
        return None;
    }
    match field_write(task, name) {
        Some(write) => Some(&write.expr),
        None => None,
    }
}

/// Where the kernel of a reduction runs; of another line, at cells.
pub(crate) fn reduced_centring(kind: WriteKind) -> Centring
    ensures { result ≡ reduced_centring kind }
{
    match kind {
        WriteKind::Computes | WriteKind::Modifies => Centring::Cell,
        WriteKind::Reduces(c) => c,
    }
}
