ghost use Rattle.std.specs.Prelude.{◌≡◌, length};
ghost use Rattle.uts_geom.specs.Spans.{IsNearSpan, rows_of};

use crate::Span;

/// A walk over the rows of a span, which `rows` gives: each row as its y and z, z outermost, both ascending.
#[derive(Debug, Drop)]
pub struct Rows {
    pub(crate) span: Span,
    // How many rows there are, and how many of them are behind.
    pub(crate) total: u64,
    pub(crate) done: u64,
    ghost near: { IsNearSpan span },
    ghost total_is: { total ≡ length (rows_of span) },
}
