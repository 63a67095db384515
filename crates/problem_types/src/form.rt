ghost use Rattle.std.specs.Prelude.{◌≡◌, ◌<◌, ◌≤◌, ◌^◌, ◌↔◌, IsTrue, All, length};
ghost use Rattle.problem_types.specs.Form.{IsShort, IsNumberList, IsLevelInForm, AreLayersInForm, IsWhatInForm, IsWriteInForm, IsTaskInForm, AreTasksInForm, IsProblemInForm};

use crate::ascending::is_ascending;
use crate::lines::are_lines_in_order;
use crate::{Ghost, GhostKind, Keep, Level, Problem, Reduction, Require, Task, Var, What, Write};

fn is_short<T>(entries: &[T]) -> bool
    ensures { IsTrue result ↔ IsShort entries.now }
{
    entries.len() < 1 << 31
}

fn is_number_list(numbers: &[u64]) -> bool
    ensures { IsTrue result ↔ IsNumberList numbers.now }
{
    !numbers.is_empty() && is_short(numbers) && is_ascending(numbers)
}

fn is_level_in_form(level: &Level) -> bool
    ensures { IsTrue result ↔ IsLevelInForm level.now }
{
    level.boxes.len() == 1 && level.patches.len() >= 1 && is_short(level.patches.as_slice())
}

/// Whether a requirement may name so many layers: none where it names no kind of cells, nodes or faces, else at least one.
pub fn are_layers_in_form(layers: Ghost) -> bool
    ensures { IsTrue result ↔ AreLayersInForm layers }
{
    match layers.kind {
        GhostKind::None => layers.n == 0,
        GhostKind::Cells
        | GhostKind::Nodes
        | GhostKind::FaceX
        | GhostKind::FaceY
        | GhostKind::FaceZ => layers.n >= 1,
    }
}

fn is_what_in_form(what: What, names: usize) -> bool
    ensures { IsTrue result ↔ IsWhatInForm names what }
{
    match what {
        What::Same { var, layers } | What::Coarse { var, layers } => {
            (var as usize) < names && are_layers_in_form(layers)
        }
        What::Fine { var } => (var as usize) < names,
        What::Number { name } => (name as usize) < names,
    }
}

fn is_write_in_form(write: &Write, names: usize) -> bool
    ensures { IsTrue result ↔ IsWriteInForm names write.now }
{
    (write.name as usize) < names && kernel_ast::in_form(&write.expr, names)
}

fn are_requirements_in_form(requirements: &[Require], names: usize) -> bool
    ensures { IsTrue result ↔ All (λ r. IsWhatInForm names r.what) requirements.now }
{
    requirements
        .iter()
        .all(|require| is_what_in_form(require.what, names))
}

fn are_writes_in_form(writes: &[Write], names: usize) -> bool
    ensures { IsTrue result ↔ All (IsWriteInForm names) writes.now }
{
    writes.iter().all(|write| is_write_in_form(write, names))
}

fn is_task_in_form(task: &Task, names: usize) -> bool
    ensures { IsTrue result ↔ IsTaskInForm names task.now }
{
    (task.name as usize) < names
        && is_number_list(task.levels.as_slice())
        && is_number_list(task.materials.as_slice())
        && is_short(task.requirements.as_slice())
        && are_requirements_in_form(task.requirements.as_slice(), names)
        && task.writes.len() >= 1
        && is_short(task.writes.as_slice())
        && are_writes_in_form(task.writes.as_slice(), names)
}

fn are_tasks_in_form(tasks: &[Task], names: usize) -> bool
    ensures { IsTrue result ↔ AreTasksInForm names tasks.now }
{
    is_short(tasks) && tasks.iter().all(|task| is_task_in_form(task, names))
}

fn are_levels_in_form(levels: &[Level]) -> bool
    ensures { IsTrue result ↔ ((1 ≤ length levels.now) × IsShort levels.now × All IsLevelInForm levels.now) }
{
    levels.len() >= 1 && is_short(levels) && levels.iter().all(is_level_in_form)
}

fn are_vars_in_form(vars: &[Var], names: usize) -> bool
    ensures { IsTrue result ↔ (IsShort vars.now × All (λ v. v.name < names) vars.now) }
{
    is_short(vars) && vars.iter().all(|v| (v.name as usize) < names)
}

fn are_reductions_in_form(reductions: &[Reduction], names: usize) -> bool
    ensures { IsTrue result ↔ (IsShort reductions.now × All (λ q. q.name < names) reductions.now) }
{
    is_short(reductions) && reductions.iter().all(|q| (q.name as usize) < names)
}

fn are_keeps_in_form(keeps: &[Keep], names: usize) -> bool
    ensures { IsTrue result ↔ (IsShort keeps.now × All (λ k. k.name < names) keeps.now) }
{
    is_short(keeps) && keeps.iter().all(|k| (k.name as usize) < names)
}

fn are_lists_in_form(p: &Problem, names: usize) -> bool
    ensures { IsTrue result ↔ (IsShort p.now.vars × All (λ v. v.name < names) p.now.vars
        × IsShort p.now.reductions × All (λ q. q.name < names) p.now.reductions
        × AreTasksInForm names p.now.init × AreTasksInForm names p.now.timestep
        × IsShort p.now.keeps × All (λ k. k.name < names) p.now.keeps) }
{
    are_vars_in_form(p.vars.as_slice(), names)
        && are_reductions_in_form(p.reductions.as_slice(), names)
        && are_tasks_in_form(p.init.as_slice(), names)
        && are_tasks_in_form(p.timestep.as_slice(), names)
        && are_keeps_in_form(p.keeps.as_slice(), names)
}

/// Whether the problem keeps the rules of form: numbers in range, lists that are neither empty where they may not be
/// nor too long, names that the problem has, and statements on ascending lines. `docs/language.md` has the rules.
pub fn in_form(p: &Problem) -> bool
    ensures { IsTrue result ↔ IsProblemInForm p.now }
{
    p.version.value == 1
        && p.dump.value >= 1
        && p.materials.value >= 1
        && are_levels_in_form(p.levels.as_slice())
        && is_short(p.names.as_slice())
        && are_lists_in_form(p, p.names.len())
        && are_lines_in_order(p)
}
