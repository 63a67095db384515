//! What holds of folds of any numbers, each law as the contract of a function that does nothing.
ghost use Rattle.reductions.specs.Laws.{PartsFoldApart, OrderDoesNotMatter};

/// A list may be cut in two: its parts, each combined by itself and then together, give what the whole gives.
pub fn parts_fold_apart()
    ensures { PartsFoldApart }
{}

/// The order of the numbers does not matter.
pub fn order_does_not_matter()
    ensures { OrderDoesNotMatter }
{}
