//! The lists of tasks of a problem, and which steps are dumped.
ghost use Rattle.std.specs.Prelude.{◌≡◌, ◌≤◌};
ghost use Rattle.problem_types.specs.Lists.{task_list, is_dumped};

use problem_types::{Problem, Task};

/// The tasks of a step: those of the init list at step 0, else those of the timestep list.
pub fn task_list(p: &Problem, step: u32) -> &[Task]
    ensures { result.now ≡ task_list p.now step }
{
    if step == 0 {
        p.init.as_slice()
    } else {
        p.timestep.as_slice()
    }
}

/// Whether the dump shows a step: each multiple of its period, and the last step.
pub fn is_dumped(p: &Problem, step: u32) -> bool
    requires { 1 ≤ p.now.dump.value }
    ensures { result ≡ is_dumped p.now step }
{
    let step = u64::from(step);
    step % p.dump.value == 0 || step == p.steps.value
}
