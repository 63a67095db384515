//! What a task reads of the values that it may be modifying.
ghost use Rattle.std.specs.Prelude.{◌↔◌, IsTrue, Any};
ghost use Rattle.task_rules.specs.Computed.{ReachesOut, ReadsWhileModified};

use crate::lines::wanted_name;
use crate::neighbours::have_neighbours;
use problem_types::{GhostKind, Require, Store, Task, What};

/// Whether what is required is ghost data, or of a level on which the task runs too.
fn reaches_out(levels: &[u64], what: What) -> bool
    ensures { IsTrue result ↔ ReachesOut levels.now what }
{
    match what {
        What::Same { layers, .. } => layers.kind != GhostKind::None,
        What::Coarse { .. } | What::Fine { .. } => have_neighbours(levels),
        What::Number { .. } => false,
    }
}

/// Whether the requirement reads new values of the name where the task itself may be modifying them.
fn reads_while_modified(levels: &[u64], name: u32, r: &Require) -> bool
    ensures { IsTrue result ↔ ReadsWhileModified levels.now name r.now }
{
    r.store == Store::New && wanted_name(r.what) == name && reaches_out(levels, r.what)
}

/// Whether the task reads new values of the name where it may be modifying them itself.
pub fn is_read_while_modified(t: &Task, name: u32) -> bool
    ensures { IsTrue result ↔ Any (ReadsWhileModified t.now.levels name) t.now.requirements }
{
    t.requirements
        .as_slice()
        .iter()
        .any(|r| reads_while_modified(t.levels.as_slice(), name, r))
}
