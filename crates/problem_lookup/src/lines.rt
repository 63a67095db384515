//! What the lines of a task write.
ghost use Rattle.std.specs.Prelude.{◌≡◌};
ghost use Rattle.std.specs.Option.{option_copied};
ghost use Rattle.problem_types.specs.Lists.{is_of_field, is_reduces, field_write, reduction_write};

use problem_types::{Task, Write, WriteKind};

/// Whether such a line computes or modifies a variable.
pub fn is_of_field(kind: WriteKind) -> bool
    ensures { result ≡ is_of_field kind }
{
    match kind {
        WriteKind::Computes | WriteKind::Modifies => true,
        WriteKind::Reduces(_) => false,
    }
}

/// Whether such a line reduces.
pub fn is_reduces(kind: WriteKind) -> bool
    ensures { result ≡ is_reduces kind }
{
    match kind {
        WriteKind::Computes | WriteKind::Modifies => false,
        WriteKind::Reduces(_) => true,
    }
}

/// The line by which the task computes or modifies the variable, the first one if there are more.
pub fn field_write(task: &Task, name: u32) -> Option<&Write>
    ensures { option_copied result ≡ field_write task.now name }
{
    task.writes
        .as_slice()
        .iter()
        .find(|w| w.name == name && is_of_field(w.kind))
}

/// The line by which the task reduces to this name, the first one if there are more.
pub fn reduction_write(task: &Task, name: u32) -> Option<&Write>
    ensures { option_copied result ≡ reduction_write task.now name }
{
    task.writes
        .as_slice()
        .iter()
        .find(|w| w.name == name && is_reduces(w.kind))
}
