//! What is computed on the materials and levels of a task.
ghost use Rattle.std.specs.Prelude.{◌≡◌, ◌+◌, ◌==◌, ◌&&◌, ◌↔◌, IsTrue, not};
ghost use Rattle.std.specs.List.{list_any};
ghost use Rattle.problem_types.specs.Lists.{runs_on, computes};
ghost use Rattle.task_rules.specs.Lines.{has_computes, wanted_name, wanted_level};
ghost use Rattle.task_rules.specs.Computed.{LackVariable, Lack, LeaveOut, NeverWrite, ComputeBeside, ComputeOnlyLater};

use crate::lines::{has_computes, reduces, wanted_name};
use crate::neighbours::{is_among, is_next_among};
use problem_types::{Ghost, GhostKind, Task, What};

/// Whether the task runs on this material and this level.
pub fn runs_on(t: &Task, material: u64, level: u64) -> bool
    ensures { result ≡ runs_on t.now material level }
{
    is_among(t.materials.as_slice(), material) && is_among(t.levels.as_slice(), level)
}

/// Whether one of the tasks computes the variable on this material and this level.
pub fn computes(tasks: &[Task], name: u32, material: u64, level: u64) -> bool
    ensures { result ≡ computes tasks.now name material level }
{
    tasks.iter().any(|t| runs_on(t, material, level) && has_computes(t.writes.as_slice(), name))
}

/// Whether the task runs on this material and on the next finer level.
fn runs_on_finer(t: &Task, material: u64, level: u64) -> bool
    ensures { result ≡ runs_on t.now material (level + 1) }
{
    is_among(t.materials.as_slice(), material) && is_next_among(t.levels.as_slice(), level)
}

/// Whether one of the tasks computes the variable on this material and on the next finer level.
fn computes_finer(tasks: &[Task], name: u32, material: u64, level: u64) -> bool
    ensures { result ≡ computes tasks.now name material (level + 1) }
{
    tasks.iter().any(|t| runs_on_finer(t, material, level)
        && has_computes(t.writes.as_slice(), name))
}

/// Whether one of the tasks computes what a task requires that runs on this material and this level.
fn computes_wanted(tasks: &[Task], what: What, material: u64, level: u64) -> bool
    ensures { result ≡ computes tasks.now (wanted_name what) material (wanted_level what level) }
{
    let name = wanted_name(what);
    match what {
        What::Coarse { .. } => computes(tasks, name, material, level.saturating_sub(1)),
        What::Fine { .. } => computes_finer(tasks, name, material, level),
        What::Same { .. } | What::Number { .. } => computes(tasks, name, material, level),
    }
}

/// Whether none of the tasks computes what is required, for one of these levels.
fn lacks_on(tasks: &[Task], what: What, material: u64, levels: &[u64]) -> bool
    ensures { result ≡ list_any (λ level. not (computes tasks.now (wanted_name what) material (wanted_level what level))) levels.now }
{
    levels
        .iter()
        .any(|level| !computes_wanted(tasks, what, material, *level))
}

/// Whether the tasks lack a variable that the task requires.
fn lacks_variable(tasks: &[Task], t: &Task, what: What) -> bool
    ensures { IsTrue result ↔ LackVariable tasks.now t.now what }
{
    let levels = t.levels.as_slice();
    t.materials
        .as_slice()
        .iter()
        .any(|material| lacks_on(tasks, what, *material, levels))
}

/// Whether the tasks lack what the task requires: none reduces the reduction, or none computes the variable on a material and
/// level that is wanted.
pub fn is_lacking(tasks: &[Task], t: &Task, what: What) -> bool
    ensures { IsTrue result ↔ Lack tasks.now t.now what }
{
    match what {
        What::Number { name } => !reduces(tasks, name),
        What::Same { .. } | What::Coarse { .. } | What::Fine { .. } => {
            lacks_variable(tasks, t, what)
        }
    }
}

/// Whether there is a material and level of the task on which none of the tasks computes the variable.
pub fn is_left_out(tasks: &[Task], t: &Task, name: u32) -> bool
    ensures { IsTrue result ↔ LeaveOut tasks.now t.now name }
{
    let layers = Ghost {
        kind: GhostKind::None,
        n: 0,
    };
    lacks_variable(tasks, t, What::Same { var: name, layers })
}

/// Whether one of the tasks computes the name anywhere.
fn has_computing(tasks: &[Task], name: u32) -> bool
    ensures { result ≡ list_any (λ t. has_computes t.writes name) tasks.now }
{
    tasks
        .iter()
        .any(|t| has_computes(t.writes.as_slice(), name))
}

/// Whether the tasks neither compute nor reduce the name anywhere.
pub fn is_never_written(tasks: &[Task], name: u32) -> bool
    ensures { IsTrue result ↔ NeverWrite tasks.now name }
{
    !has_computing(tasks, name) && !reduces(tasks, name)
}

/// Whether one of the tasks computes the variable on one of these levels.
fn computes_on(tasks: &[Task], name: u32, material: u64, levels: &[u64]) -> bool
    ensures { result ≡ list_any (λ level. computes tasks.now name material level) levels.now }
{
    levels
        .iter()
        .any(|level| computes(tasks, name, material, *level))
}

/// Whether one of the tasks computes the variable on a material and level of the task.
pub fn is_computed_beside(tasks: &[Task], t: &Task, name: u32) -> bool
    ensures { IsTrue result ↔ ComputeBeside tasks.now t.now name }
{
    let levels = t.levels.as_slice();
    t.materials
        .as_slice()
        .iter()
        .any(|material| computes_on(tasks, name, *material, levels))
}

/// Whether a later task computes the variable on one of these levels, and no earlier one does.
fn computes_only_later_on(
    earlier: &[Task],
    later: &[Task],
    name: u32,
    material: u64,
    levels: &[u64],
) -> bool
    ensures { result ≡ list_any (λ l. not (computes earlier.now name material l) && computes later.now name material l) levels.now }
{
    levels.iter().any(|level| !computes(earlier, name, material, *level)
        && computes(later, name, material, *level))
}

/// Whether there is a material and level of the task on which a later task computes the variable, and no earlier one does.
pub fn is_computed_only_later(earlier: &[Task], later: &[Task], t: &Task, name: u32) -> bool
    ensures { IsTrue result ↔ ComputeOnlyLater earlier.now later.now t.now name }
{
    let levels = t.levels.as_slice();
    t.materials.as_slice().iter().any(|material| computes_only_later_on(
        earlier, later, name, *material, levels,
    ))
}
