//! The faults of the lines that write.
ghost use Rattle.std.specs.Prelude.{◌≡◌, ◌≤◌, ◌↔◌, IsTrue, All, Some, slice_get};
ghost use Rattle.task_check.specs.First.{IsFirst};
ghost use Rattle.task_check.specs.Lines.{WriteFault, IsWrittenBefore, IsUnordered};
ghost use Rattle.task_check.specs.Supplies.{layers_of};
ghost use Rattle.task_check.specs.Parts.{OfWrites};
ghost use Rattle.problem_types.specs.Lists.{task_list};
ghost use Rattle.problem_types.specs.Form.{IsProblemInForm};

use crate::fault::{Fault, FaultKind, Which};
use crate::line::{Line, first_fault};
use crate::slices::{behind, front, item};
use crate::supplies::is_all_supplied;
use problem_lookup::task_list;
use problem_types::{Problem, Task, Write, WriteKind};
use task_rules::{
    are_names_known, has_computes, has_modifies, has_reduces, is_computed_beside,
    is_computed_only_later, is_left_out, is_read_while_modified, reduces,
};

/// Whether what is written is written before, by an earlier task or by one of the lines.
fn is_written_before(
    earlier: &[Task],
    task: &Task,
    lines: &[Write],
    name: u32,
    kind: WriteKind,
) -> bool
    ensures { IsTrue result ↔ IsWrittenBefore earlier.now task.now lines.now name kind }
{
    match kind {
        WriteKind::Computes => {
            is_computed_beside(earlier, task, name)
                || has_computes(lines, name)
                || has_modifies(lines, name)
        }
        WriteKind::Modifies => has_computes(lines, name),
        WriteKind::Reduces(_) => reduces(earlier, name) || has_reduces(lines, name),
    }
}

/// Whether a variable is modified too early or at the wrong place.
fn is_unordered(earlier: &[Task], later: &[Task], task: &Task, lines: &[Write], name: u32) -> bool
    ensures { IsTrue result ↔ IsUnordered earlier.now later.now task.now lines.now name }
{
    is_computed_only_later(earlier, later, task, name)
        || has_modifies(lines, name)
        || is_read_while_modified(task, name)
}

/// A line that writes, at its place among those of its task.
#[derive(Clone, Copy)]
struct WriteLine<'a> {
    problem: &'a Problem,
    list: u32,
    place: usize,
    task: &'a Task,
    at_line: usize,
    write: &'a Write,
    ghost few: { All (λ r. layers_of r.what ≤ 8) task.now.requirements },
}

impl Line for WriteLine<'_> {
    ghost stands = { λ s. WriteFault s.problem.now s.list s.place s.task.now s.at_line s.write.now };

    fn has(&self, kind: FaultKind) -> bool {
        let (problem, task, write) = (self.problem, self.task, self.write);
        let list = task_list(problem, self.list);
        let earlier = front(list, self.place);
        let later = behind(list, self.place);
        let lines = front(task.writes.as_slice(), self.at_line);
        let is_modify = write.kind == WriteKind::Modifies;
        match kind {
            FaultKind::TooLarge(Which::Lines) => {
                let above = task.requirements.len();
                above <= 64 && self.at_line == 64 - above
            }
            FaultKind::Unknown => !are_names_known(problem, write),
            FaultKind::ReadBeyondGhost => !is_all_supplied(problem, task, write),
            FaultKind::MissingCompute => is_modify && is_left_out(list, task, write.name),
            FaultKind::DoubleCompute => {
                is_written_before(earlier, task, lines, write.name, write.kind)
            }
            FaultKind::UnorderedModify => {
                is_modify && is_unordered(earlier, later, task, lines, write.name)
            }
            _ => false,
        }
    }
}

/// The first fault of a line that writes of the task at this place of a list.
pub(crate) fn writes_fault(problem: &Problem, list: u32, place: usize, task: &Task) -> Option<Fault>
    requires form { IsProblemInForm problem.now }
    requires at { slice_get (task_list problem.now list) place ≡ Some task.now }
    requires few { All (λ r. layers_of r.what ≤ 8) task.now.requirements }
    ensures { IsFirst (OfWrites problem.now list place task.now) result }
{
    for at_line in 0..task.writes.len() {
        let write = item(task.writes.as_slice(), at_line);
        let line = WriteLine {
            problem,
            list,
            place,
            task,
            at_line,
            write,
        };
        if let Some(fault) = first_fault(write.line, &line) {
            return Some(fault);
        }
    }
    None
}
