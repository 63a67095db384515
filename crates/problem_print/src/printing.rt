ghost use Rattle.std.specs.Prelude.{◌≡◌, ◌∷◌, [], List, ℕ, map, IfOk, OnOk};
ghost use Rattle.std.specs.List.{flat_map};
ghost use Rattle.problem_types.specs.declared.problem.Problem.{Problem};
ghost use Rattle.problem_file.specs.Grammar.{Spells, IsWellFormed};
ghost use Rattle.problem_file.specs.Statements.{box_statement, patch_statement, statements_of};
ghost use Rattle.problem_print.specs.Pages.{Adds, head_statements, level_statements, task_statement, task_statements, declarations, schedule};
ghost use Rattle.problem_print.specs.Printed.{printed_text};

use crate::laws::printed_text_is_read;
use crate::page::Page;
use crate::statements::{put_statements, put_task_words};
use problem_file::one_problem;
use problem_printable::spelled_can_be_printed;
use problem_types::{BoxLine, Level, Name, NoMemory, Problem, Task};
use std::alloc::Global;

/// The text of the problem: each statement in its printed form on its own line, and the lines between empty.
/// `docs/language.md` has the printed form. The text spells this problem and no other, so `parse` gives it again.
pub fn print(alloc: Global, p: &Problem) -> Result<Vec<u8>, NoMemory>
    requires { IsWellFormed p.now }
    ensures printed { IfOk result (λ text. text.items ≡ printed_text p.now) }
    ensures spelled { IfOk result (λ text. Spells text.items p.now) }
    ensures read_again { IfOk result (λ text. (q : Problem) → Spells text.items q → q ≡ p.now) }
{
    printed_text_is_read();
    spelled_can_be_printed();
    one_problem();
    let mut page = Page {
        text: Vec::new(alloc),
        line: 0,
    };
    match put_problem(&mut page, p) {
        Ok(()) => Ok(page.text),
        Err(_) => Err(NoMemory),
    }
}

/// Puts all statements of a problem.
fn put_problem(page: &mut Page, p: &Problem) -> Result<(), uts_num::NoMemory>
    ensures { OnOk result (Adds p.now.names (statements_of p.now) page.old page.new) }
{
    put_declarations(page, p.names.as_slice(), p)?;
    put_schedule(page, p.names.as_slice(), p)?;
    Ok(())
}

/// Puts what stands before the tasks.
fn put_declarations(page: &mut Page, names: &[Name], p: &Problem) -> Result<(), uts_num::NoMemory>
    ensures { OnOk result (Adds names.now (declarations p.now) page.old page.new) }
{
    put_head(page, p)?;
    put_levels(page, p.levels.as_slice())?;
    put_statements(page, names, p.vars.as_slice())?;
    put_statements(page, names, p.reductions.as_slice())?;
    Ok(())
}

/// Puts the tasks and what stands behind them.
fn put_schedule(page: &mut Page, names: &[Name], p: &Problem) -> Result<(), uts_num::NoMemory>
    ensures { OnOk result (Adds names.now (schedule p.now) page.old page.new) }
{
    page.put_word_line(p.init_line, b"init")?;
    put_tasks(page, names, p.init.as_slice())?;
    page.put_word_line(p.timestep_line, b"timestep")?;
    put_tasks(page, names, p.timestep.as_slice())?;
    put_statements(page, names, p.keeps.as_slice())?;
    page.put_word_line(p.end_line, b"end")?;
    Ok(())
}

/// Puts what stands before the levels.
fn put_head(page: &mut Page, p: &Problem) -> Result<(), uts_num::NoMemory>
    ensures { OnOk result ((names : List (List ℕ)) → Adds names (head_statements p.now) page.old page.new) }
{
    page.put_numbered_line(p.version.line, b"problem ", p.version.value)?;
    page.put_numbered_line(p.steps.line, b"steps ", p.steps.value)?;
    page.put_numbered_line(p.dump.line, b"dump ", p.dump.value)?;
    page.put_numbered_line(p.ghost_limit.line, b"ghost ", p.ghost_limit.value)?;
    page.put_numbered_line(p.materials.line, b"materials ", p.materials.value)?;
    Ok(())
}

/// Puts levels, each with its box and its patches.
fn put_levels(page: &mut Page, levels: &[Level]) -> Result<(), uts_num::NoMemory>
    ensures { OnOk result ((names : List (List ℕ)) → Adds names (flat_map level_statements levels.now) page.old page.new) }
{
    for level in levels {
        put_level(page, level)?;
    }
    Ok(())
}

fn put_level(page: &mut Page, level: &Level) -> Result<(), uts_num::NoMemory>
    ensures { OnOk result ((names : List (List ℕ)) → Adds names (level_statements level.now) page.old page.new) }
{
    page.put_numbered_line(level.line, b"level ratio ", level.ratio)?;
    put_boxes(page, level.boxes.as_slice())?;
    put_patches(page, level.patches.as_slice())?;
    Ok(())
}

fn put_boxes(page: &mut Page, boxes: &[BoxLine]) -> Result<(), uts_num::NoMemory>
    ensures { OnOk result ((names : List (List ℕ)) → Adds names (map box_statement boxes.now) page.old page.new) }
{
    for corners in boxes {
        page.put_corners_line(b"box", corners)?;
    }
    Ok(())
}

fn put_patches(page: &mut Page, patches: &[BoxLine]) -> Result<(), uts_num::NoMemory>
    ensures { OnOk result ((names : List (List ℕ)) → Adds names (map patch_statement patches.now) page.old page.new) }
{
    for corners in patches {
        page.put_corners_line(b"patch", corners)?;
    }
    Ok(())
}

/// Puts tasks, each with what it requires and what it writes.
fn put_tasks(page: &mut Page, names: &[Name], tasks: &[Task]) -> Result<(), uts_num::NoMemory>
    ensures { OnOk result (Adds names.now (flat_map task_statements tasks.now) page.old page.new) }
{
    for task in tasks {
        put_task(page, names, task)?;
    }
    Ok(())
}

fn put_task(page: &mut Page, names: &[Name], task: &Task) -> Result<(), uts_num::NoMemory>
    ensures { OnOk result (Adds names.now (task_statements task.now) page.old page.new) }
{
    put_task_line(page, names, task)?;
    put_statements(page, names, task.requirements.as_slice())?;
    put_statements(page, names, task.writes.as_slice())?;
    Ok(())
}

fn put_task_line(page: &mut Page, names: &[Name], task: &Task) -> Result<(), uts_num::NoMemory>
    ensures { OnOk result (Adds names.now (task_statement task.now ∷ []) page.old page.new) }
{
    page.begin_line(task.line)?;
    put_task_words(&mut page.text, names, task)?;
    page.end_line()?;
    Ok(())
}
