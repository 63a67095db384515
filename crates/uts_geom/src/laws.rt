//! What holds of each span, each law as the contract of a function that does nothing.
ghost use Rattle.std.specs.Prelude.{◌≢◌, ◌↔◌, IsTrue, Contains, AllPairs};
ghost use Rattle.uts_geom.specs.Spans.{is_inside, indexes_of};
ghost use Rattle.uts_geom.specs.Laws.{SpansMeetInIndexes};
ghost use Rattle.uts_geom.specs.declared.index.Index.{Index};
ghost use Rattle.uts_geom.specs.declared.span.Span.{Span};

/// The list of a span's indexes has those that lie inside, and no others.
pub fn spans_hold_their_indexes()
    ensures { (s : Span) (i : Index) → Contains (indexes_of s) i ↔ IsTrue (is_inside s i) }
{}

/// Each index stands once in the list.
pub fn indexes_stand_once()
    ensures { (s : Span) → AllPairs ◌≢◌ (indexes_of s) }
{}

/// Two spans meet exactly where an index lies in both.
pub fn spans_meet_in_indexes()
    ensures { SpansMeetInIndexes }
{}
