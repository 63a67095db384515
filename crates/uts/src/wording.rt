ghost use Rattle.std.specs.Prelude.{◌≡◌};
ghost use Rattle.uts.specs.Words.{fault_words};

use task_check::{FaultKind, Which};

/// The words of a fault in its refusal.
pub fn words_of(kind: FaultKind) -> &'static str
    ensures { result.now ≡ fault_words kind }
{
    match kind {
        FaultKind::TooLarge(Which::Steps) => "too large (steps)",
        FaultKind::TooLarge(Which::Dump) => "too large (dump)",
        FaultKind::TooLarge(Which::Ghost) => "too large (ghost)",
        FaultKind::TooLarge(Which::Materials) => "too large (materials)",
        FaultKind::TooLarge(Which::Levels) => "too large (levels)",
        FaultKind::TooLarge(Which::Bounds) => "too large (bounds)",
        FaultKind::TooLarge(Which::Patches) => "too large (patches)",
        FaultKind::TooLarge(Which::Cells) => "too large (cells)",
        FaultKind::TooLarge(Which::Variables) => "too large (variables)",
        FaultKind::TooLarge(Which::Reductions) => "too large (reductions)",
        FaultKind::TooLarge(Which::Tasks) => "too large (tasks)",
        FaultKind::TooLarge(Which::Lines) => "too large (lines)",
        FaultKind::TooLarge(Which::Detailed) => "too large (detailed)",
        FaultKind::TooLarge(Which::Slots) => "too large (slots)",
        FaultKind::TooLarge(Which::Reads) => "too large (reads)",
        FaultKind::TooLarge(Which::Stored) => "too large (stored)",
        FaultKind::TooLarge(Which::Gathered) => "too large (gathered)",
        FaultKind::BadGrid => "bad grid",
        FaultKind::Unknown => "unknown name",
        FaultKind::Twice => "twice",
        FaultKind::GhostTooWide => "ghost too wide",
        FaultKind::ReadBeyondGhost => "read beyond ghost",
        FaultKind::MissingLevel => "missing level",
        FaultKind::MissingCompute => "missing compute",
        FaultKind::DoubleCompute => "double compute",
        FaultKind::UnorderedModify => "unordered modify",
    }
}
