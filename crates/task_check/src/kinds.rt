//! The kinds of faults in order.
ghost use Rattle.std.specs.Prelude.{◌≡◌, ◌<◌};
ghost use Rattle.task_check.specs.First.{rank};

use crate::fault::{FaultKind, Which};

/// The kinds of faults in the order in which they come on one line.
const KINDS: [FaultKind; 26] = [
    FaultKind::TooLarge(Which::Steps),
    FaultKind::TooLarge(Which::Dump),
    FaultKind::TooLarge(Which::Ghost),
    FaultKind::TooLarge(Which::Materials),
    FaultKind::TooLarge(Which::Levels),
    FaultKind::TooLarge(Which::Bounds),
    FaultKind::TooLarge(Which::Patches),
    FaultKind::TooLarge(Which::Cells),
    FaultKind::TooLarge(Which::Variables),
    FaultKind::TooLarge(Which::Reductions),
    FaultKind::TooLarge(Which::Tasks),
    FaultKind::TooLarge(Which::Lines),
    FaultKind::TooLarge(Which::Detailed),
    FaultKind::TooLarge(Which::Slots),
    FaultKind::TooLarge(Which::Reads),
    FaultKind::TooLarge(Which::Stored),
    FaultKind::TooLarge(Which::Gathered),
    FaultKind::BadGrid,
    FaultKind::Unknown,
    FaultKind::Twice,
    FaultKind::GhostTooWide,
    FaultKind::ReadBeyondGhost,
    FaultKind::MissingLevel,
    FaultKind::MissingCompute,
    FaultKind::DoubleCompute,
    FaultKind::UnorderedModify,
];

pub(crate) fn kind_at(place: usize) -> FaultKind
    requires { place < 26 }
    ensures { rank result ≡ place }
{
    KINDS[place]
}
