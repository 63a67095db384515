//! The kinds of steps.
ghost use Rattle.std.specs.Prelude.{◌≡◌, ◌≤◌};
ghost use Rattle.graph_compiler.specs.Kinds.{kind_at, list_at};

use crate::plan::{ListKind, StepKind};
use problem_lookup::is_dumped;
use task_check::{Checked, bounds};

/// The list whose tasks run in a step.
fn list_at(step: u32) -> ListKind
    ensures { result ≡ list_at step }
{
    if step == 0 {
        ListKind::Init
    } else {
        ListKind::Timestep
    }
}

/// The kind of a step of the problem: its list, whether a step follows, and whether the dump shows it.
pub fn kind_of(c: &Checked, step: u32) -> StepKind
    requires { step ≤ c.now.steps.value }
    ensures { result ≡ kind_at c.now step }
{
    bounds(c);
    let p = c.problem();
    StepKind {
        list: list_at(step),
        next: u64::from(step) < p.steps.value,
        dump: is_dumped(p, step),
    }
}
