//! Whether the lines of a problem ascend, and its names are numbered as they appear.
ghost use Rattle.std.specs.Prelude.{◌≡◌, ℕ, List, [], ◌∷◌, map, Some};
ghost use Rattle.std.specs.List.{flat_map};
ghost use Rattle.problem_printable.specs.Numbering.{known_behind};
ghost use Rattle.problem_printable.specs.Progress.{Mark, next_progress, progress_behind, reached, box_mark, var_mark, reduction_mark, require_mark, write_mark, keep_mark, level_marks, task_marks, grid_marks, closing_marks, timestep_marks, schedule_marks, problem_marks};

use crate::numbering::{known_behind_expression, known_behind_name, known_behind_what};
use problem_types::{BoxLine, Keep, Level, Problem, Reduction, Require, Task, Var, Write};

/// How far the statements up to one come: its line, and how many names are known behind it.
#[derive(Clone, Copy)]
pub(crate) struct Progress {
    pub(crate) line: u32,
    pub(crate) known: usize,
}

// What stands on one line.
trait Statement {
    ghost mark_of: { Self → Mark };

    fn line(&self) -> u32
        ensures { result ≡ (mark_of self.now).line };

    fn known_behind(&self, known: usize) -> Option<usize>
        ensures { result ≡ known_behind known (mark_of self.now).names };
}

impl Statement for BoxLine {
    ghost mark_of = { box_mark };

    fn line(&self) -> u32 {
        self.line
    }

    fn known_behind(&self, known: usize) -> Option<usize> {
        Some(known)
    }
}

impl Statement for Var {
    ghost mark_of = { var_mark };

    fn line(&self) -> u32 {
        self.line
    }

    fn known_behind(&self, known: usize) -> Option<usize> {
        known_behind_name(known, self.name)
    }
}

impl Statement for Reduction {
    ghost mark_of = { reduction_mark };

    fn line(&self) -> u32 {
        self.line
    }

    fn known_behind(&self, known: usize) -> Option<usize> {
        known_behind_name(known, self.name)
    }
}

impl Statement for Require {
    ghost mark_of = { require_mark };

    fn line(&self) -> u32 {
        self.line
    }

    fn known_behind(&self, known: usize) -> Option<usize> {
        known_behind_what(known, self.what)
    }
}

impl Statement for Write {
    ghost mark_of = { write_mark };

    fn line(&self) -> u32 {
        self.line
    }

    #[tactic(auto, using(crate::specs::Known::known_head))]
    fn known_behind(&self, known: usize) -> Option<usize> {
        let known = known_behind_name(known, self.name)?;
        known_behind_expression(known, &self.expr)
    }
}

impl Statement for Keep {
    ghost mark_of = { keep_mark };

    fn line(&self) -> u32 {
        self.line
    }

    fn known_behind(&self, known: usize) -> Option<usize> {
        known_behind_name(known, self.name)
    }
}

// A further statement, if its line comes after the last one.
fn next(before: Progress, line: u32, known: Option<usize>) -> Option<Progress>
    ensures { result ≡ next_progress before line known }
{
    match known {
        Some(known) if before.line < line => Some(Progress { line, known }),
        _ => None,
    }
}

// A further statement that has no names.
fn next_line(before: Progress, line: u32) -> Option<Progress>
    ensures { result ≡ next_progress before line (Some before.known) }
{
    next(before, line, Some(before.known))
}

// A list of statements.
#[tactic(auto, using(crate::proofs::Steps::rest_of_map))]
fn behind_list<S: Statement>(before: Progress, statements: &[S]) -> Option<Progress>
    ensures { result ≡ progress_behind before (map S.mark_of statements.now) }
{
    let mut last = before;
    for statement in statements {
        last = next(last, statement.line(), statement.known_behind(last.known))?;
    }
    Some(last)
}

#[tactic(auto, using(crate::proofs::Steps::parts))]
fn behind_level(before: Progress, level: &Level) -> Option<Progress>
    ensures { result ≡ progress_behind before (level_marks level.now) }
{
    let line = next_line(before, level.line)?;
    let last_box = behind_list(line, level.boxes.as_slice())?;
    behind_list(last_box, level.patches.as_slice())
}

#[tactic(auto, using(crate::proofs::Steps::parts))]
fn behind_levels(before: Progress, levels: &[Level]) -> Option<Progress>
    ensures { result ≡ progress_behind before (flat_map level_marks levels.now) }
{
    let mut last = before;
    for level in levels {
        last = behind_level(last, level)?;
    }
    Some(last)
}

#[tactic(auto, using(crate::proofs::Steps::parts))]
fn behind_task(before: Progress, task: &Task) -> Option<Progress>
    ensures { result ≡ progress_behind before (task_marks task.now) }
{
    let line = next(
        before,
        task.line,
        known_behind_name(before.known, task.name),
    )?;
    let last_requirement = behind_list(line, task.requirements.as_slice())?;
    behind_list(last_requirement, task.writes.as_slice())
}

#[tactic(auto, using(crate::proofs::Steps::parts))]
fn behind_tasks(before: Progress, tasks: &[Task]) -> Option<Progress>
    ensures { result ≡ progress_behind before (flat_map task_marks tasks.now) }
{
    let mut last = before;
    for task in tasks {
        last = behind_task(last, task)?;
    }
    Some(last)
}

// The statements before the variables and the reductions.
#[tactic(auto, using(crate::proofs::Steps::parts), unfolding(crate::specs::Progress::grid_marks))]
fn behind_grid(p: &Problem) -> Option<Progress>
    ensures { result ≡ progress_behind (reached 0 0) (grid_marks p.now) }
{
    let version = next_line(Progress { line: 0, known: 0 }, p.version.line)?;
    let steps = next_line(version, p.steps.line)?;
    let dump = next_line(steps, p.dump.line)?;
    let ghost_limit = next_line(dump, p.ghost_limit.line)?;
    let materials = next_line(ghost_limit, p.materials.line)?;
    behind_levels(materials, p.levels.as_slice())
}

#[tactic(auto, using(crate::proofs::Steps::parts))]
fn behind_closing(before: Progress, p: &Problem) -> Option<Progress>
    ensures { result ≡ progress_behind before (closing_marks p.now) }
{
    let last_keep = behind_list(before, p.keeps.as_slice())?;
    next_line(last_keep, p.end_line)
}

#[tactic(auto, using(crate::proofs::Steps::parts), unfolding(crate::specs::Progress::timestep_marks))]
fn behind_timestep(before: Progress, p: &Problem) -> Option<Progress>
    ensures { result ≡ progress_behind before (timestep_marks p.now) }
{
    let line = next_line(before, p.timestep_line)?;
    let last_task = behind_tasks(line, p.timestep.as_slice())?;
    behind_closing(last_task, p)
}

#[tactic(auto, using(crate::proofs::Steps::parts))]
fn behind_schedule(before: Progress, p: &Problem) -> Option<Progress>
    ensures { result ≡ progress_behind before (schedule_marks p.now) }
{
    let line = next_line(before, p.init_line)?;
    let last_task = behind_tasks(line, p.init.as_slice())?;
    behind_timestep(last_task, p)
}

/// How far all statements come.
pub(crate) fn progress_of(p: &Problem) -> Option<Progress>
    ensures { result ≡ progress_behind (reached 0 0) (problem_marks p.now) }
{
    let last_of_grid = behind_grid(p)?;
    let last_variable = behind_list(last_of_grid, p.vars.as_slice())?;
    let last_reduction = behind_list(last_variable, p.reductions.as_slice())?;
    behind_schedule(last_reduction, p)
}
