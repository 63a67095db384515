//! How deep kernels are.
ghost use Rattle.std.specs.Prelude.{ℕ, ◌≤◌, All};
ghost use Rattle.problem_types.specs.Form.{AreTasksInForm, IsWriteInForm};
ghost use Rattle.kernel_sweeps.specs.Room.{AreAtMostDeep, IsAtMostDeep};

use kernel_ast::depth;
use problem_types::{Task, Write};

/// The depth of the deepest kernel of lines that write.
fn deepest_line(writes: &[Write], names: usize) -> u32
    requires { All (IsWriteInForm names) writes.now }
    ensures deep { All (IsAtMostDeep result) writes.now }
    ensures least { (bound : ℕ) → All (IsAtMostDeep bound) writes.now → result ≤ bound }
    ensures shallow { result ≤ 64 }
{
    let mut deepest = 0;
    for write in writes {
        deepest = depth(&write.expr).max(deepest);
    }
    deepest
}

/// The depth of the deepest kernel of tasks, 0 where there is none.
pub fn deepest_kernel(tasks: &[Task], names: usize) -> u32
    requires { AreTasksInForm names tasks.now }
    ensures deep { All (AreAtMostDeep result) tasks.now }
    ensures least { (bound : ℕ) → All (AreAtMostDeep bound) tasks.now → result ≤ bound }
    ensures shallow { result ≤ 64 }
{
    let mut deepest = 0;
    for task in tasks {
        deepest = deepest_line(task.writes.as_slice(), names).max(deepest);
    }
    deepest
}
