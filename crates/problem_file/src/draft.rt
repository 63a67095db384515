//! A problem that is built up statement by statement.
ghost use Rattle.std.specs.Prelude.{◌≡◌, OnOk};
ghost use Rattle.problem_file.specs.Drafts.{empty_problem, map_last, with_box, with_patch, with_requirement, with_write, with_task_line, with_statement, list_of};

use crate::order::{Place, TaskList};
use problem_types::{BoxLine, Keep, Level, Num, Problem, Reduction, Require, Task, Var, Write};
use sqlite_items::Items;
use statement_parse::{Corners, Statement};
use std::alloc::{AllocError, Global};

/// A problem so far, and the place behind its last statement. Its names stand apart.
#[derive(Debug, Drop)]
pub(crate) struct Draft {
    pub(crate) place: Place,
    pub(crate) problem: Problem,
}

/// Nothing said yet.
pub(crate) fn empty_problem(alloc: Global) -> Problem
    ensures { result ≡ empty_problem }
{
    let unsaid = Num { line: 0, value: 0 };
    Problem {
        names: Items::new(alloc),
        version: unsaid,
        steps: unsaid,
        dump: unsaid,
        ghost_limit: unsaid,
        materials: unsaid,
        levels: Items::new(alloc),
        vars: Items::new(alloc),
        reductions: Items::new(alloc),
        init_line: 0,
        init: Items::new(alloc),
        timestep_line: 0,
        timestep: Items::new(alloc),
        keeps: Items::new(alloc),
        end_line: 0,
    }
}

/// The list of tasks in which a place stands, the first one before any.
pub(crate) fn list_of(place: Place) -> TaskList
    ensures { result ≡ list_of place }
{
    match place {
        Place::Opened(tasks) | Place::Task(tasks) | Place::Write(tasks) => tasks,
        _ => TaskList::Init,
    }
}

fn box_line(line: u32, corners: Corners) -> BoxLine
    ensures { result ≡ record { line = line; lo = corners.lo; hi = corners.hi } }
{
    let Corners { lo, hi } = corners;
    BoxLine { line, lo, hi }
}

/// Gives the last level a box.
fn add_box(levels: &mut Items<Level>, line: u32, corners: Corners) -> Result<(), AllocError>
    ensures { OnOk result (levels.new ≡ map_last (with_box line corners) levels.old) }
{
    let Some(mut level) = levels.pop() else {
        return Ok(());
    };
    level.boxes.push(box_line(line, corners))?;
    levels.push(level)?;
    Ok(())
}

/// Gives the last level a patch.
fn add_patch(levels: &mut Items<Level>, line: u32, corners: Corners) -> Result<(), AllocError>
    ensures { OnOk result (levels.new ≡ map_last (with_patch line corners) levels.old) }
{
    let Some(mut level) = levels.pop() else {
        return Ok(());
    };
    level.patches.push(box_line(line, corners))?;
    levels.push(level)?;
    Ok(())
}

/// Gives the last task a requirement.
fn add_requirement(tasks: &mut Items<Task>, require: Require) -> Result<(), AllocError>
    ensures { OnOk result (tasks.new ≡ map_last (with_requirement require) tasks.old) }
{
    let Some(mut task) = tasks.pop() else {
        return Ok(());
    };
    task.requirements.push(require)?;
    tasks.push(task)?;
    Ok(())
}

/// Gives the last task something that it writes.
fn add_write(tasks: &mut Items<Task>, write: Write) -> Result<(), AllocError>
    ensures { OnOk result (tasks.new ≡ map_last (with_write write) tasks.old) }
{
    let Some(mut task) = tasks.pop() else {
        return Ok(());
    };
    task.writes.push(write)?;
    tasks.push(task)?;
    Ok(())
}

/// Adds a line of a task: its first one, or one of the last task. Any other statement changes no task.
fn add_task_line(
    alloc: Global,
    tasks: &mut Items<Task>,
    line: u32,
    statement: Statement,
) -> Result<(), AllocError>
    ensures { OnOk result (tasks.new ≡ with_task_line line statement tasks.old) }
{
    match statement {
        Statement::Task {
            name,
            levels,
            materials,
        } => tasks.push(Task {
            line,
            name,
            levels,
            materials,
            requirements: Items::new(alloc),
            writes: Items::new(alloc),
        }),
        Statement::Require { store, what } => add_requirement(tasks, Require { line, store, what }),
        Statement::Write { kind, name, expr } => {
            let write = Write {
                line,
                kind,
                name,
                expr,
            };
            add_write(tasks, write)
        }
        _ => Ok(()),
    }
}

/// Adds a statement, in this list of tasks if it belongs to one.
pub(crate) fn add(
    alloc: Global,
    p: &mut Problem,
    list: TaskList,
    line: u32,
    statement: Statement,
) -> Result<(), AllocError>
    ensures { OnOk result (p.new ≡ with_statement list line statement p.old) }
{
    match statement {
        Statement::Version(value) => p.version = Num { line, value },
        Statement::Steps(value) => p.steps = Num { line, value },
        Statement::Dump(value) => p.dump = Num { line, value },
        Statement::Ghost(value) => p.ghost_limit = Num { line, value },
        Statement::Materials(value) => p.materials = Num { line, value },
        Statement::Init => p.init_line = line,
        Statement::Timestep => p.timestep_line = line,
        Statement::End => p.end_line = line,
        Statement::Level(ratio) => {
            let level = Level {
                line,
                ratio,
                boxes: Items::new(alloc),
                patches: Items::new(alloc),
            };
            return p.levels.push(level);
        }
        Statement::Box(corners) => return add_box(&mut p.levels, line, corners),
        Statement::Patch(corners) => return add_patch(&mut p.levels, line, corners),
        Statement::Var {
            name,
            centring,
            outside,
        } => {
            return p.vars.push(Var {
                line,
                name,
                centring,
                outside,
            });
        }
        Statement::Reduction { name, fold } => {
            return p.reductions.push(Reduction { line, name, fold });
        }
        Statement::Keep(name) => return p.keeps.push(Keep { line, name }),
        of_task => match list {
            TaskList::Init => return add_task_line(alloc, &mut p.init, line, of_task),
            TaskList::Timestep => return add_task_line(alloc, &mut p.timestep, line, of_task),
        },
    }
    Ok(())
}
