//! The faults of `requires` lines.
ghost use Rattle.std.specs.Prelude.{◌≡◌, ◌↔◌, IsTrue, Some, slice_get};
ghost use Rattle.task_check.specs.First.{IsFirst};
ghost use Rattle.task_check.specs.Lines.{RequireFault, FindsNothing};
ghost use Rattle.task_check.specs.Parts.{OfRequirements};
ghost use Rattle.problem_types.specs.Lists.{task_list};
ghost use Rattle.problem_types.specs.Form.{IsProblemInForm};

use crate::fault::{Fault, FaultKind, Which};
use crate::line::{Line, first_fault};
use crate::slices::{front, item};
use crate::supplies::layers_of;
use kernel_ast::Store;
use problem_lookup::task_list;
use problem_types::{Problem, Require, Task};
use task_rules::{is_known, is_lacking, is_repeated, wants_missing_level};

/// A `requires` line, at its place among those of its task.
#[derive(Clone, Copy)]
struct RequireLine<'a> {
    problem: &'a Problem,
    list: u32,
    place: usize,
    task: &'a Task,
    at_line: usize,
    requirement: Require,
}

/// Whether the task at this place of a list finds no number for what it requires.
fn finds_nothing(p: &Problem, list: u32, place: usize, task: &Task, r: Require) -> bool
    ensures { IsTrue result ↔ FindsNothing p.now list place task.now r.store r.what }
{
    match r.store {
        Store::New => is_lacking(front(task_list(p, list), place), task, r.what),
        Store::Old => {
            list == 0
                || is_lacking(p.init.as_slice(), task, r.what)
                || is_lacking(p.timestep.as_slice(), task, r.what)
        }
    }
}

impl Line for RequireLine<'_> {
    ghost stands = { λ s. RequireFault s.problem.now s.list s.place s.task.now s.at_line s.requirement };

    fn has(&self, kind: FaultKind) -> bool {
        let (problem, task, r) = (self.problem, self.task, self.requirement);
        match kind {
            FaultKind::TooLarge(Which::Lines) => self.at_line == 64,
            FaultKind::Unknown => !is_known(problem, r.what),
            FaultKind::Twice => is_repeated(front(task.requirements.as_slice(), self.at_line), r),
            FaultKind::GhostTooWide => problem.ghost_limit.value < layers_of(r.what),
            FaultKind::MissingLevel => {
                wants_missing_level(problem.levels.len(), task.levels.as_slice(), r.what)
            }
            FaultKind::MissingCompute => finds_nothing(problem, self.list, self.place, task, r),
            _ => false,
        }
    }
}

/// The first fault of a `requires` line of the task at this place of a list.
pub(crate) fn requirements_fault(
    problem: &Problem,
    list: u32,
    place: usize,
    task: &Task,
) -> Option<Fault>
    requires form { IsProblemInForm problem.now }
    requires at { slice_get (task_list problem.now list) place ≡ Some task.now }
    ensures { IsFirst (OfRequirements problem.now list place task.now) result }
{
    for at_line in 0..task.requirements.len() {
        let requirement = *item(task.requirements.as_slice(), at_line);
        let line = RequireLine {
            problem,
            list,
            place,
            task,
            at_line,
            requirement,
        };
        if let Some(fault) = first_fault(requirement.line, &line) {
            return Some(fault);
        }
    }
    None
}
