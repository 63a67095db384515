//! What holds of each level: a law, as the contract of a function that does nothing.
ghost use Rattle.patch_regions.specs.Laws.{OwnedSpansTile};

/// The owned spans of a level's patches tile its index space, for each centring.
pub fn owned_spans_tile()
    ensures { OwnedSpansTile }
{}
