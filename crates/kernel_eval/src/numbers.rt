//! The number of a read in a part.
ghost use Rattle.std.specs.Prelude.{◌≡◌, ◌+ℤ◌, IfSome, IfNone, IsTrue, IsFalse};
ghost use Rattle.std.specs.Int.{saturate_signed, w64};
ghost use Rattle.kernel_ast.specs.Form.{is_fine};
ghost use Rattle.kernel_ast.specs.declared.expression.How.TheVariants.{Coarse};
ghost use Rattle.uts_geom.specs.Spans.{is_inside, IsNear, IsNearSpan};
ghost use Rattle.problem_types.specs.Regions.{moved, offset_of};
ghost use Rattle.refine_coarsen.specs.Levels.{IsRatio};
ghost use Rattle.refine_coarsen.specs.FineFolds.{number_within};
ghost use Rattle.kernel_eval.specs.Environments.{fine_number, is_near, is_ratio, number_in_part};

use crate::Part;
use ghost_gather::Window;
use kernel_ast::How;
use refine_coarsen::{children, coarse_index, fine_fold};
use uts_geom::{Index, Span, contains};

/// The indexes that windows may reach.
const NEAR: Span = Span {
    lo: Index {
        x: -65536,
        y: -65536,
        z: -65536,
    },
    hi: Index {
        x: 65537,
        y: 65537,
        z: 65537,
    },
};

/// The sum, or the number nearest to it.
fn moved_along(n: i64, by: i64) -> i64
    ensures { result ≡ saturate_signed w64 (n +ℤ by) }
{
    n.saturating_add(by)
}

/// The index by an offset away, where the span holds it.
pub(crate) fn moved_into(s: Span, i: Index, by: [i64; 3]) -> Option<Index>
    requires { IsNearSpan s }
    ensures some { IfSome result (λ to. to ≡ moved i (offset_of by)) }
    ensures held { IfSome result (λ to. IsTrue (is_inside s to)) }
    ensures none { IfNone result (IsFalse (is_inside s (moved i (offset_of by)))) }
{
    let [x, y, z] = by;
    let to = Index {
        x: moved_along(i.x, x),
        y: moved_along(i.y, y),
        z: moved_along(i.z, z),
    };
    if contains(s, to) { Some(to) } else { None }
}

/// The number in a window at an offset from an index, 0 where the window's span does not hold that index.
fn number_beside(w: &Window, i: Index, by: [i64; 3]) -> i64
    ensures { result ≡ number_within w.now (moved i (offset_of by)) }
{
    match moved_into(w.span(), i, by) {
        Some(to) => w.at(to),
        None => 0,
    }
}

/// Whether a level may be refined by this ratio.
fn is_ratio(ratio: i64) -> bool
    ensures is { result ≡ is_ratio ratio }
    ensures means { IsTrue result → IsRatio ratio }
{
    ratio == 2 || ratio == 4
}

/// Whether a window may reach the index.
fn is_near(i: Index) -> bool
    ensures is { result ≡ is_near i }
    ensures means { IsTrue result → IsNear i }
{
    contains(NEAR, i)
}

/// The number of a read of the next coarser level in a part.
fn coarse_number(part: &Part, by: [i64; 3], i: Index) -> i64
    ensures { result ≡ number_in_part part.now Coarse by i }
{
    if is_ratio(part.ratio) {
        number_beside(&part.window, coarse_index(i, part.ratio), by)
    } else {
        0
    }
}

/// The fold over the children of an index in a part.
fn fine_number(part: &Part, how: How, i: Index) -> i64
    requires { IsTrue (is_fine how) }
    ensures { result ≡ fine_number part.now how i }
{
    if is_ratio(part.ratio) && is_near(i) {
        fine_fold(how, &part.window, children(i, part.ratio, part.centring))
    } else {
        0
    }
}

/// The number of a read of this form and offset in a part, from a kernel at an index.
pub(crate) fn number_in_part(part: &Part, how: How, by: [i64; 3], i: Index) -> i64
    ensures { result ≡ number_in_part part.now how by i }
{
    match how {
        How::Same => number_beside(&part.window, i, by),
        How::Coarse => coarse_number(part, by, i),
        How::FineSum | How::FineMin | How::FineMax | How::FineCount => fine_number(part, how, i),
    }
}
