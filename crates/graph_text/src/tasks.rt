//! The lines of detailed tasks.
ghost use Rattle.std.specs.Prelude.{◌≡◌, ◌++◌, ◌<◌, ◌^◌, slice_get, OnOk};
ghost use Rattle.std.specs.Option.{option_map_or};
ghost use Rattle.graph_compiler.specs.Kinds.{tasks_in};
ghost use Rattle.graph_compiler.specs.Shown.{of_line};
ghost use Rattle.graph_text.specs.Listing.{combining_text, detail_text, running_text, task_line, task_name};
ghost use Rattle.graph_text.specs.Predecessors.{predecessors_of};

use crate::NoMemory;
use crate::lists::list_at;
use crate::putting::{put_labelled, put_labelled_long, put_name, put_numbers};
use graph_compiler::{Detail, ListKind};
use graph_types::Graph;
use problem_types::{Problem, Task, Write};

/// The tasks of a list.
fn tasks_in(p: &Problem, list: ListKind) -> &[Task]
    ensures { result.now ≡ tasks_in p.now list }
{
    match list {
        ListKind::Init => p.init.as_slice(),
        ListKind::Timestep => p.timestep.as_slice(),
    }
}

/// The name of the task at a place in its list.
fn task_name(tasks: &[Task], place: u32) -> u32
    ensures { result ≡ task_name tasks.now place }
{
    tasks.get(place as usize).map_or(0, |t| t.name)
}

/// The name of what a line of a task writes.
fn name_written(writes: &[Write], line: u32) -> u32
    ensures { result ≡ option_map_or (λ w. w.name) (slice_get writes.now line) 0 }
{
    writes.get(line as usize).map_or(0, |w| w.name)
}

/// The name of what a line of the task at a place in its list writes.
fn line_name(tasks: &[Task], place: u32, line: u32) -> u32
    ensures { result ≡ of_line tasks.now place line (λ w. w.name) }
{
    tasks
        .get(place as usize)
        .map_or(0, |t| name_written(t.writes.as_slice(), line))
}

/// Puts a task, and where it runs.
fn put_running(line: &mut Vec<u8>, p: &Problem, tasks: &[Task], d: Detail) -> Result<(), NoMemory>
    ensures { OnOk result (line.new.items ≡ line.old.items ++ running_text p.now tasks.now d) }
{
    put_name(line, p, task_name(tasks, d.task))?;
    put_labelled(line, b" level ", d.level)?;
    put_labelled(line, b" material ", d.material)?;
    put_labelled(line, b" patch ", d.patch)
}

/// Puts the reduction of a line whose parts are combined.
fn put_combining(
    line: &mut Vec<u8>,
    p: &Problem,
    tasks: &[Task],
    d: Detail,
    writes_line: u32,
) -> Result<(), NoMemory>
    ensures { OnOk result (line.new.items ≡ line.old.items ++ combining_text p.now tasks.now d writes_line) }
{
    line.extend_from_slice(b"combine ")?;
    put_name(line, p, line_name(tasks, d.task, writes_line))
}

/// Puts what a detailed task is.
fn put_detail(line: &mut Vec<u8>, p: &Problem, tasks: &[Task], d: Detail) -> Result<(), NoMemory>
    ensures { OnOk result (line.new.items ≡ line.old.items ++ detail_text p.now tasks.now d d.combine) }
{
    match d.combine {
        None => put_running(line, p, tasks, d),
        Some(writes_line) => put_combining(line, p, tasks, d, writes_line),
    }
}

/// Makes `line` the line of the detailed task of this number, which waits for these tasks.
pub(crate) fn put_task_line(
    line: &mut Vec<u8>,
    p: &Problem,
    list: ListKind,
    g: &Graph,
    predecessors: &[u32],
    number: usize,
    d: Detail,
) -> Result<(), NoMemory>
    requires few { number < 2 ^ 63 }
    requires predecessors { predecessors.now ≡ predecessors_of g.now number }
    ensures { OnOk result (line.new.items ≡ task_line p.now list g.now number d) }
{
    line.clear();
    put_labelled_long(line, b"task ", number as u64)?;
    line.push(b' ')?;
    put_detail(line, p, tasks_in(p, list), d)?;
    put_numbers(line, b" reads", list_at(&g.reads, number))?;
    put_numbers(line, b" writes", list_at(&g.writes, number))?;
    put_numbers(line, b" after", predecessors)?;
    line.push(b'\n')?;
    Ok(())
}
