//! Folds over the children of an index.
ghost use Rattle.std.specs.Prelude.{◌≡◌, ◌<◌, ◌^◌, ◌∷◌, [], IsTrue, length};
ghost use Rattle.std.specs.List.{flat_map};
ghost use Rattle.kernel_ast.specs.Form.{is_fine};
ghost use Rattle.uts_geom.specs.Spans.{from_to, indexes_of, row_indexes};
ghost use Rattle.refine_coarsen.specs.FineFolds.{fine_fold_of, fold_for, number_for, number_within, with_indexes};

use ghost_gather::Window;
use kernel_ast::How;
use reductions::{Fold, combine, identity};
use uts_geom::{Index, Span, contains};

/// The number of an index in a window, and 0 where the window's span does not hold the index.
fn number_within(w: &Window, i: Index) -> i64
    ensures { result ≡ number_within w.now i }
{
    if contains(w.span(), i) { w.at(i) } else { 0 }
}

/// How the numbers of a form are combined.
fn fold_for(how: How) -> Fold
    ensures { result ≡ fold_for how }
{
    match how {
        How::FineMin => Fold::Min,
        How::FineMax => Fold::Max,
        How::Same | How::Coarse | How::FineSum | How::FineCount => Fold::Sum,
    }
}

/// What an index counts in a form.
fn number_for(how: How, w: &Window, i: Index) -> i64
    ensures { result ≡ number_for how w.now i }
{
    match how {
        How::FineCount => 1,
        How::Same | How::Coarse | How::FineSum | How::FineMin | How::FineMax => number_within(w, i),
    }
}

/// A number, combined with that of a further index where the index space holds it.
fn with_index(how: How, w: &Window, before: i64, i: Index) -> i64
    ensures { result ≡ with_indexes how w.now before (i ∷ []) }
{
    if w.holds(i) {
        combine(fold_for(how), before, number_for(how, w, i))
    } else {
        before
    }
}

/// The same with the indexes of a row, at some y and z.
fn with_row(how: How, w: &Window, before: i64, s: Span, y: i64, z: i64) -> i64
    ensures { result ≡ with_indexes how w.now before (row_indexes s y z) }
{
    let mut all = before;
    for x in s.lo.x..s.hi.x {
        all = with_index(how, w, all, Index { x, y, z });
    }
    all
}

/// The same with the indexes at some z.
fn with_plane(how: How, w: &Window, before: i64, s: Span, z: i64) -> i64
    ensures { result ≡ with_indexes how w.now before (flat_map (λ y. row_indexes s y z) (from_to s.lo.y s.hi.y)) }
{
    let mut all = before;
    for y in s.lo.y..s.hi.y {
        all = with_row(how, w, all, s, y, z);
    }
    all
}

/// The same with all indexes of a span.
fn with_all(how: How, w: &Window, before: i64, s: Span) -> i64
    ensures { result ≡ with_indexes how w.now before (indexes_of s) }
{
    let mut all = before;
    for z in s.lo.z..s.hi.z {
        all = with_plane(how, w, all, s, z);
    }
    all
}

/// The fold over those children of an index that the window's index space holds: the wrapping sum of their numbers, the least, the
/// greatest, or how many they are. Over no children the sum and the count are 0, the least is 2^63 - 1, and the greatest -2^63. A child
/// that the window's span does not hold counts with the number 0.
pub fn fine_fold(how: How, w: &Window, kids: Span) -> i64
    requires fine { IsTrue (is_fine how) }
    requires few { length (indexes_of kids) < 2 ^ 63 }
    ensures { result ≡ fine_fold_of how w.now (indexes_of kids) }
{
    with_all(how, w, identity(fold_for(how)), kids)
}
