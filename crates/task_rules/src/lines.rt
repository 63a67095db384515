//! What the lines of tasks want and write.
ghost use Rattle.std.specs.Prelude.{◌≡◌};
ghost use Rattle.std.specs.Option.{is_some};
ghost use Rattle.problem_types.specs.Lists.{reduction_write};
ghost use Rattle.task_rules.specs.Lines.{wanted_name, has_computes, has_modifies, has_reduces, reduces};

use problem_types::{Task, What, Write, WriteKind};

/// The name of what is required.
pub fn wanted_name(what: What) -> u32
    ensures { result ≡ wanted_name what }
{
    match what {
        What::Same { var, .. } | What::Coarse { var, .. } | What::Fine { var } => var,
        What::Number { name } => name,
    }
}

/// Whether one of these lines computes the name.
pub fn has_computes(writes: &[Write], name: u32) -> bool
    ensures { result ≡ has_computes writes.now name }
{
    writes.iter().any(|w| w.name == name && matches!(w.kind, WriteKind::Computes))
}

/// Whether one of these lines modifies the name.
pub fn has_modifies(writes: &[Write], name: u32) -> bool
    ensures { result ≡ has_modifies writes.now name }
{
    writes.iter().any(|w| w.name == name && matches!(w.kind, WriteKind::Modifies))
}

/// Whether one of these lines reduces the name.
pub fn has_reduces(writes: &[Write], name: u32) -> bool
    ensures { result ≡ has_reduces writes.now name }
{
    writes.iter().any(|w| w.name == name && matches!(w.kind, WriteKind::Reduces(_)))
}

/// Whether a line of the task reduces the name.
#[tactic(auto, using(crate::proofs::Somewhere::found))]
fn is_reduced_by(t: &Task, name: u32) -> bool
    ensures { result ≡ is_some (reduction_write t.now name) }
{
    has_reduces(t.writes.as_slice(), name)
}

/// Whether a task of the list reduces the name.
pub fn reduces(tasks: &[Task], name: u32) -> bool
    ensures { result ≡ reduces tasks.now name }
{
    tasks.iter().any(|t| is_reduced_by(t, name))
}
