ghost use Rattle.std.specs.Prelude.{◌≡◌, IfOk};

use crate::{Level, Name, NoMemory, Problem, Task, Write};
use kernel_ast::copy as copy_expression;
use sqlite_items::Items;
use std::alloc::Global;

fn copy_names(alloc: Global, names: &[Name]) -> Result<Items<Name>, NoMemory>
    ensures { IfOk result (λ x. x ≡ names.now) }
{
    let mut copied = Items::new(alloc);
    for name in names {
        copied.push(Name::new(alloc, name.bytes())?)?;
    }
    Ok(copied)
}

fn copy_level(alloc: Global, level: &Level) -> Result<Level, NoMemory>
    ensures { IfOk result (λ x. x ≡ level.now) }
{
    Ok(Level {
        line: level.line,
        ratio: level.ratio,
        boxes: Items::from_slice(alloc, level.boxes.as_slice())?,
        patches: Items::from_slice(alloc, level.patches.as_slice())?,
    })
}

fn copy_levels(alloc: Global, levels: &[Level]) -> Result<Items<Level>, NoMemory>
    ensures { IfOk result (λ x. x ≡ levels.now) }
{
    let mut copied = Items::new(alloc);
    for level in levels {
        copied.push(copy_level(alloc, level)?)?;
    }
    Ok(copied)
}

fn copy_write(alloc: Global, write: &Write) -> Result<Write, NoMemory>
    ensures { IfOk result (λ x. x ≡ write.now) }
{
    Ok(Write {
        line: write.line,
        kind: write.kind,
        name: write.name,
        expr: copy_expression(alloc, &write.expr)?,
    })
}

fn copy_writes(alloc: Global, writes: &[Write]) -> Result<Items<Write>, NoMemory>
    ensures { IfOk result (λ x. x ≡ writes.now) }
{
    let mut copied = Items::new(alloc);
    for write in writes {
        copied.push(copy_write(alloc, write)?)?;
    }
    Ok(copied)
}

fn copy_task(alloc: Global, task: &Task) -> Result<Task, NoMemory>
    ensures { IfOk result (λ x. x ≡ task.now) }
{
    Ok(Task {
        line: task.line,
        name: task.name,
        levels: Items::from_slice(alloc, task.levels.as_slice())?,
        materials: Items::from_slice(alloc, task.materials.as_slice())?,
        requirements: Items::from_slice(alloc, task.requirements.as_slice())?,
        writes: copy_writes(alloc, task.writes.as_slice())?,
    })
}

fn copy_tasks(alloc: Global, tasks: &[Task]) -> Result<Items<Task>, NoMemory>
    ensures { IfOk result (λ x. x ≡ tasks.now) }
{
    let mut copied = Items::new(alloc);
    for task in tasks {
        copied.push(copy_task(alloc, task)?)?;
    }
    Ok(copied)
}

/// The same problem once more.
pub fn copy(alloc: Global, p: &Problem) -> Result<Problem, NoMemory>
    ensures { IfOk result (λ x. x ≡ p.now) }
{
    Ok(Problem {
        names: copy_names(alloc, p.names.as_slice())?,
        version: p.version,
        steps: p.steps,
        dump: p.dump,
        ghost_limit: p.ghost_limit,
        materials: p.materials,
        levels: copy_levels(alloc, p.levels.as_slice())?,
        vars: Items::from_slice(alloc, p.vars.as_slice())?,
        reductions: Items::from_slice(alloc, p.reductions.as_slice())?,
        init_line: p.init_line,
        init: copy_tasks(alloc, p.init.as_slice())?,
        timestep_line: p.timestep_line,
        timestep: copy_tasks(alloc, p.timestep.as_slice())?,
        keeps: Items::from_slice(alloc, p.keeps.as_slice())?,
        end_line: p.end_line,
    })
}
