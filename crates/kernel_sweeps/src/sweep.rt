ghost use Rattle.uts_geom.specs.Spans.{IsNearSpan};

use kernel_ast::Expr;
use uts_geom::Span;

/// A kernel that runs at each index of a span, in one step, on one material and one level.
#[derive(Clone, Copy)]
pub struct Sweep<'a> {
    pub kernel: &'a Expr,
    pub step: u32,
    pub material: u32,
    pub level: u32,
    pub span: Span,
    pub ghost near: { IsNearSpan span },
}
