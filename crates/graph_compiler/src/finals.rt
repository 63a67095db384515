//! Which slots hold how variables and reductions stand at the end of a step.
ghost use Rattle.std.specs.Prelude.{◌≡◌, ◌≤◌, length, nat_lt, not};
ghost use Rattle.std.specs.List.{count_by};
ghost use Rattle.problem_types.specs.Form.{IsProblemInForm};
ghost use Rattle.problem_types.specs.declared.problem.Problem.{Problem};
ghost use Rattle.task_check.specs.Bounds.{AreBoundedTasks};
ghost use Rattle.graph_compiler.specs.Kept.{is_final, is_last_version};
ghost use Rattle.graph_compiler.specs.Plan.{slots_of_list};
ghost use Rattle.graph_compiler.specs.Shown.{modifies_variable};
ghost use Rattle.graph_compiler.specs.declared.plan.SlotKind.TheVariants as kind;

use crate::plan::{Slot, SlotKind};
use crate::written::modified_by;
use problem_types::Task;

/// Whether no more tasks modify the variable of the slot than its version tells.
fn is_newest(tasks: &[Task], s: Slot) -> bool
    requires { length tasks.now ≤ 64 }
    ensures { result ≡ not (nat_lt s.version (count_by (modifies_variable s.name s.material s.level) tasks.now)) }
{
    s.version >= modified_by(tasks, s.name, s.material, s.level)
}

/// Whether the slot, of a variable as a task of the list leaves it, is of the last version.
fn is_last_version(tasks: &[Task], s: Slot) -> bool
    requires few { length tasks.now ≤ 64 }
    requires new { s.kind ≡ kind.New }
    ensures { (p : Problem) → IsProblemInForm p → AreBoundedTasks p tasks.now → result ≡ is_last_version (slots_of_list p tasks.now) s }
{
    is_newest(tasks, s)
}

/// Whether the slot of a plan of the list holds how a variable or a reduction stands at the end of the step.
pub(crate) fn is_final(tasks: &[Task], s: Slot) -> bool
    requires few { length tasks.now ≤ 64 }
    ensures { (p : Problem) → IsProblemInForm p → AreBoundedTasks p tasks.now → result ≡ is_final (slots_of_list p tasks.now) s.kind s }
{
    match s.kind {
        SlotKind::New => is_last_version(tasks, s),
        SlotKind::Number => true,
        SlotKind::Old | SlotKind::Part | SlotKind::OldNumber => false,
    }
}
