//! What holds of both tables, as the contract of a function that does nothing.
ghost use Rattle.ghost_rules.specs.Laws.{OffsetsFitWindows};

/// An offset is allowed on an axis exactly where it leads into the window at each patch.
pub fn offsets_fit_windows()
    ensures { OffsetsFitWindows }
{}
