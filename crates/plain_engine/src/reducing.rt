use kernel_ast::Expr;
use problem_types::{Centring, Fold};

/// A kernel whose numbers are combined to one: how, and at the indexes of which centring.
#[derive(Clone, Copy)]
pub(crate) struct Reducing<'a> {
    pub(crate) kernel: &'a Expr,
    pub(crate) centring: Centring,
    pub(crate) how: Fold,
}
