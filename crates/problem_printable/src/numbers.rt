//! Whether the numbers of a problem can be spelled. That a number of 64 bits fits is known where it is read.
ghost use Rattle.std.specs.Prelude.{◌↔◌, IsTrue, All, FitsSigned};
ghost use Rattle.std.specs.Int.{w64};
ghost use Rattle.statement_parse.specs.Grammar.{AreNumbers};
ghost use Rattle.problem_file.specs.Statements.{statements_of};
ghost use Rattle.problem_printable.specs.Printable.{IsCorner, IsWhat, IsSayable};
ghost use Rattle.problem_printable.specs.Parts.{IsHeadSayable, IsBoxSayable, IsLevelSayable, IsWriteSayable, IsTaskSayable, AreStatementsSayable};

use crate::expressions::is_sayable;
use problem_types::{
    BoxLine, Level, Problem, Require, Task, Var, What, Write, are_layers_in_form, is_ascending,
};

fn are_numbers(numbers: &[u64]) -> bool
    ensures { IsTrue result ↔ AreNumbers numbers.now }
{
    numbers.len() >= 1 && is_ascending(numbers)
}

fn is_head_sayable(p: &Problem) -> bool
    ensures { IsTrue result ↔ IsHeadSayable p.now }
{
    let _steps = p.steps.value;
    let _ghost_limit = p.ghost_limit.value;
    p.version.value == 1 && p.dump.value >= 1 && p.materials.value >= 1
}

fn is_corner(corner: &[u64; 3]) -> bool
    ensures { IsTrue result ↔ IsCorner corner.now }
{
    let [_x, _y, _z] = *corner;
    true
}

fn is_box_sayable(line: &BoxLine) -> bool
    ensures { IsTrue result ↔ IsBoxSayable line.now }
{
    is_corner(&line.lo) && is_corner(&line.hi)
}

fn is_level_sayable(level: &Level) -> bool
    ensures { IsTrue result ↔ IsLevelSayable level.now }
{
    let _ratio = level.ratio;
    level.boxes.as_slice().iter().all(is_box_sayable)
        && level.patches.as_slice().iter().all(is_box_sayable)
}

fn are_levels_sayable(levels: &[Level]) -> bool
    ensures { IsTrue result ↔ All IsLevelSayable levels.now }
{
    levels.iter().all(is_level_sayable)
}

fn is_var_sayable(var: &Var) -> bool
    ensures { IsTrue result ↔ FitsSigned w64 var.now.outside }
{
    let _outside = var.outside;
    true
}

fn are_vars_sayable(vars: &[Var]) -> bool
    ensures { IsTrue result ↔ All (λ v. FitsSigned w64 v.outside) vars.now }
{
    vars.iter().all(is_var_sayable)
}

fn is_what_sayable(what: What) -> bool
    ensures { IsTrue result ↔ IsWhat what }
{
    match what {
        What::Same { layers, .. } | What::Coarse { layers, .. } => {
            let _layers = layers.n;
            are_layers_in_form(layers)
        }
        What::Fine { .. } | What::Number { .. } => true,
    }
}

fn are_requirements_sayable(requirements: &[Require]) -> bool
    ensures { IsTrue result ↔ All (λ r. IsWhat r.what) requirements.now }
{
    requirements
        .iter()
        .all(|require| is_what_sayable(require.what))
}

fn are_writes_sayable(writes: &[Write], names: usize) -> bool
    ensures { IsTrue result ↔ All (IsWriteSayable names) writes.now }
{
    writes.iter().all(|write| is_sayable(&write.expr, names))
}

fn is_task_sayable(task: &Task, names: usize) -> bool
    ensures { IsTrue result ↔ IsTaskSayable names task.now }
{
    are_numbers(task.levels.as_slice())
        && are_numbers(task.materials.as_slice())
        && are_requirements_sayable(task.requirements.as_slice())
        && are_writes_sayable(task.writes.as_slice(), names)
}

fn are_tasks_sayable(tasks: &[Task], names: usize) -> bool
    ensures { IsTrue result ↔ All (IsTaskSayable names) tasks.now }
{
    tasks.iter().all(|task| is_task_sayable(task, names))
}

fn are_parts_sayable(p: &Problem, names: usize) -> bool
    ensures { IsTrue result ↔ AreStatementsSayable names p.now }
{
    is_head_sayable(p)
        && are_levels_sayable(p.levels.as_slice())
        && are_vars_sayable(p.vars.as_slice())
        && are_tasks_sayable(p.init.as_slice(), names)
        && are_tasks_sayable(p.timestep.as_slice(), names)
}

/// Whether each statement's numbers can be spelled, where so many names are known.
pub(crate) fn are_statements_sayable(p: &Problem, names: usize) -> bool
    ensures { IsTrue result ↔ All (λ s. IsSayable names s.statement) (statements_of p.now) }
{
    are_parts_sayable(p, names)
}
