ghost use Rattle.std.specs.Prelude.{◌≡◌, ◌≢◌, ◌<◌, ◌↔◌, IsTrue, IsSome, All, SomeIff, map, ℕ};
ghost use Rattle.std.specs.List.{flat_map};
ghost use Rattle.problem_types.specs.Ascent.{last_ascending};
ghost use Rattle.problem_types.specs.Form.{level_lines, task_lines, grid_lines, schedule_lines, closing_lines, timestep_lines, later_lines, IsInLineOrder};
ghost use Rattle.std.specs.List.Sorted.{IsStrictlyIncreasing};

use crate::{BoxLine, Keep, Level, Problem, Reduction, Require, Task, Var, Write};

// What stands on one line.
trait Statement {
    ghost line_of: { Self → ℕ };

    fn line(&self) -> u32
        ensures { result ≡ line_of self.now };
}

impl Statement for BoxLine {
    ghost line_of = { λ b. b.line };

    fn line(&self) -> u32 {
        self.line
    }
}

impl Statement for Var {
    ghost line_of = { λ v. v.line };

    fn line(&self) -> u32 {
        self.line
    }
}

impl Statement for Reduction {
    ghost line_of = { λ q. q.line };

    fn line(&self) -> u32 {
        self.line
    }
}

impl Statement for Require {
    ghost line_of = { λ r. r.line };

    fn line(&self) -> u32 {
        self.line
    }
}

impl Statement for Write {
    ghost line_of = { λ w. w.line };

    fn line(&self) -> u32 {
        self.line
    }
}

impl Statement for Keep {
    ghost line_of = { λ k. k.line };

    fn line(&self) -> u32 {
        self.line
    }
}

// The line, where it comes after the last one.
fn next(last: u32, line: u32) -> Option<u32>
    ensures { SomeIff result (last < line) line }
{
    (last < line).then_some(line)
}

// The last line of statements that come in order after a line.
#[tactic(auto, using(crate::proofs::Ascent::rest_of_map))]
fn last_of<S: Statement>(after: u32, statements: &[S]) -> Option<u32>
    ensures { result ≡ last_ascending after (map S.line_of statements.now) }
{
    let mut last = after;
    for statement in statements {
        last = next(last, statement.line())?;
    }
    Some(last)
}

#[tactic(auto, using(crate::proofs::Ascent::parts))]
fn last_of_level(after: u32, level: &Level) -> Option<u32>
    ensures { result ≡ last_ascending after (level_lines level.now) }
{
    let line = next(after, level.line)?;
    let last_box = last_of(line, level.boxes.as_slice())?;
    last_of(last_box, level.patches.as_slice())
}

#[tactic(auto, using(crate::proofs::Ascent::parts))]
fn last_of_levels(after: u32, levels: &[Level]) -> Option<u32>
    ensures { result ≡ last_ascending after (flat_map level_lines levels.now) }
{
    let mut last = after;
    for level in levels {
        last = last_of_level(last, level)?;
    }
    Some(last)
}

#[tactic(auto, using(crate::proofs::Ascent::parts))]
fn last_of_task(after: u32, task: &Task) -> Option<u32>
    ensures { result ≡ last_ascending after (task_lines task.now) }
{
    let line = next(after, task.line)?;
    let last_requirement = last_of(line, task.requirements.as_slice())?;
    last_of(last_requirement, task.writes.as_slice())
}

#[tactic(auto, using(crate::proofs::Ascent::parts))]
fn last_of_tasks(after: u32, tasks: &[Task]) -> Option<u32>
    ensures { result ≡ last_ascending after (flat_map task_lines tasks.now) }
{
    let mut last = after;
    for task in tasks {
        last = last_of_task(last, task)?;
    }
    Some(last)
}

// The last line before the variables and the reductions.
#[tactic(auto, using(crate::proofs::Ascent::parts), unfolding(crate::specs::Form::grid_lines))]
fn last_of_grid(p: &Problem) -> Option<u32>
    ensures { result ≡ last_ascending p.now.version.line (grid_lines p.now) }
{
    let steps = next(p.version.line, p.steps.line)?;
    let dump = next(steps, p.dump.line)?;
    let ghost_limit = next(dump, p.ghost_limit.line)?;
    let materials = next(ghost_limit, p.materials.line)?;
    last_of_levels(materials, p.levels.as_slice())
}

#[tactic(auto, using(crate::proofs::Ascent::parts))]
fn last_of_closing(after: u32, p: &Problem) -> Option<u32>
    ensures { result ≡ last_ascending after (closing_lines p.now) }
{
    let last_keep = last_of(after, p.keeps.as_slice())?;
    next(last_keep, p.end_line)
}

#[tactic(auto, using(crate::proofs::Ascent::parts), unfolding(crate::specs::Form::timestep_lines))]
fn last_of_timestep(after: u32, p: &Problem) -> Option<u32>
    ensures { result ≡ last_ascending after (timestep_lines p.now) }
{
    let line = next(after, p.timestep_line)?;
    let last_task = last_of_tasks(line, p.timestep.as_slice())?;
    last_of_closing(last_task, p)
}

#[tactic(auto, using(crate::proofs::Ascent::parts))]
fn last_of_schedule(after: u32, p: &Problem) -> Option<u32>
    ensures { result ≡ last_ascending after (schedule_lines p.now) }
{
    let line = next(after, p.init_line)?;
    let last_task = last_of_tasks(line, p.init.as_slice())?;
    last_of_timestep(last_task, p)
}

// The last of all lines.
fn last_line(p: &Problem) -> Option<u32>
    ensures { result ≡ last_ascending p.now.version.line (later_lines p.now) }
{
    let last_of_grid = last_of_grid(p)?;
    let last_variable = last_of(last_of_grid, p.vars.as_slice())?;
    let last_reduction = last_of(last_variable, p.reductions.as_slice())?;
    last_of_schedule(last_reduction, p)
}

// Whether each statement stands on a line below 2^31, and after those before it.
#[tactic(auto, using(crate::proofs::Ascent::increases))]
pub(crate) fn are_lines_in_order(p: &Problem) -> bool
    ensures { IsTrue result ↔ IsInLineOrder p.now }
{
    last_line(p).is_some() && p.end_line < 1 << 31
}
