//! Whether no part of a problem is missing.
ghost use Rattle.std.specs.Prelude.{◌↔◌, IsTrue};
ghost use Rattle.problem_file.specs.Statements.{IsWholeLevel, IsWholeTask, IsWhole};

use problem_types::{Level, Problem, Task};

fn is_whole_level(level: &Level) -> bool
    ensures { IsTrue result ↔ IsWholeLevel level.now }
{
    level.boxes.len() == 1 && level.patches.len() >= 1
}

fn is_whole_task(task: &Task) -> bool
    ensures { IsTrue result ↔ IsWholeTask task.now }
{
    task.writes.len() >= 1
}

/// Whether there is a level, each level has one box and a patch, and each task writes something.
pub(crate) fn is_whole(p: &Problem) -> bool
    ensures { IsTrue result ↔ IsWhole p.now }
{
    p.levels.len() >= 1
        && p.levels.as_slice().iter().all(is_whole_level)
        && p.init.as_slice().iter().all(is_whole_task)
        && p.timestep.as_slice().iter().all(is_whole_task)
}
