//! The faults of `task` lines and of the lines under them.
ghost use Rattle.std.specs.Prelude.{◌≡◌, ◌<◌, ◌≤◌, Some, slice_get};
ghost use Rattle.task_check.specs.First.{IsFirst};
ghost use Rattle.task_check.specs.Lines.{TaskFault};
ghost use Rattle.task_check.specs.Parts.{OfTask, OfTasks};
ghost use Rattle.problem_types.specs.Lists.{task_list};
ghost use Rattle.problem_types.specs.Form.{IsProblemInForm};

use crate::fault::{Fault, FaultKind, Which};
use crate::line::{Line, first_fault};
use crate::requirements::requirements_fault;
use crate::slices::{front, item};
use crate::writes::writes_fault;
use problem_lookup::task_list;
use problem_types::{Problem, Task};

/// A `task` line, at its place in a list.
#[derive(Clone, Copy)]
struct TaskLine<'a> {
    problem: &'a Problem,
    list: u32,
    place: usize,
    task: &'a Task,
}

impl Line for TaskLine<'_> {
    ghost stands = { λ s. TaskFault s.problem.now s.list s.place s.task.now };

    fn has(&self, kind: FaultKind) -> bool {
        let (problem, task) = (self.problem, self.task);
        let earlier = front(task_list(problem, self.list), self.place);
        match kind {
            FaultKind::TooLarge(Which::Tasks) => self.place == 64,
            FaultKind::Unknown => {
                task.materials
                    .as_slice()
                    .iter()
                    .any(|m| problem.materials.value <= *m)
            }
            FaultKind::Twice => earlier.iter().any(|t| t.name == task.name),
            FaultKind::MissingLevel => {
                task.levels
                    .as_slice()
                    .iter()
                    .any(|l| problem.levels.len() as u64 <= *l)
            }
            _ => false,
        }
    }
}

/// The first fault of a task, on its line or under it.
fn task_fault(problem: &Problem, list: u32, place: usize, task: &Task) -> Option<Fault>
    requires form { IsProblemInForm problem.now }
    requires at { slice_get (task_list problem.now list) place ≡ Some task.now }
    requires few { problem.now.ghost_limit.value ≤ 8 }
    ensures { IsFirst (OfTask problem.now list place task.now) result }
{
    let line = TaskLine {
        problem,
        list,
        place,
        task,
    };
    if let Some(fault) = first_fault(task.line, &line) {
        return Some(fault);
    }
    if let Some(fault) = requirements_fault(problem, list, place, task) {
        return Some(fault);
    }
    writes_fault(problem, list, place, task)
}

/// The first fault of the tasks of a list.
pub(crate) fn tasks_fault(problem: &Problem, list: u32) -> Option<Fault>
    requires form { IsProblemInForm problem.now }
    requires few { problem.now.ghost_limit.value ≤ 8 }
    ensures { IsFirst (OfTasks problem.now list) result }
{
    let tasks = task_list(problem, list);
    for place in 0..tasks.len() {
        if let Some(fault) = task_fault(problem, list, place, item(tasks, place)) {
            return Some(fault);
        }
    }
    None
}
