//! The first fault on a line.
ghost use Rattle.std.specs.Prelude.{◌↔◌, IsTrue};
ghost use Rattle.task_check.specs.First.{IsFirst, IsFirstKind};
ghost use Rattle.task_check.specs.Parts.{OnLine};
ghost use Rattle.task_check.specs.declared.fault.FaultKind.{FaultKind};

use crate::fault::{Fault, FaultKind};
use crate::kinds::kind_at;

/// A line on which faults may stand.
pub(crate) trait Line {
    /// A fault of the kind stands on the line.
    ghost stands: { Self → FaultKind → Type 0 };

    /// Whether a fault of the kind stands on the line.
    fn has(&self, kind: FaultKind) -> bool
        ensures { IsTrue result ↔ stands self.now kind };
}

/// The first kind of fault on the line.
fn first_kind<L: Line>(line: &L) -> Option<FaultKind>
    ensures { IsFirstKind (L.stands line.now) result }
{
    for place in 0..26 {
        let kind = kind_at(place);
        if line.has(kind) {
            return Some(kind);
        }
    }
    None
}

/// The first fault on the line of this number.
pub(crate) fn first_fault<L: Line>(number: u32, line: &L) -> Option<Fault>
    ensures { IsFirst (OnLine number (L.stands line.now)) result }
{
    match first_kind(line) {
        Some(kind) => Some(Fault { line: number, kind }),
        None => None,
    }
}
