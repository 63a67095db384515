ghost use Rattle.std.specs.Prelude.{◌≡◌, ◌-◌, ◌↔◌, IsTrue};
ghost use Rattle.std.specs.Option.{SomeIff};
ghost use Rattle.kernel_ast.specs.Size.{node_count};
ghost use Rattle.kernel_ast.specs.Form.{IsExpressionInForm, IsWithin, is_fine, is_zero, is_read_in_form};

use crate::{Expr, How, Read};

/// Whether a kernel of a problem with so many names may have this expression: at most 64 deep and of
/// at most 256 nodes, each literal at least 0, each name below `names`, and no offset at a fine read.
pub fn in_form(e: &Expr, names: usize) -> bool
    ensures { IsTrue result ↔ IsExpressionInForm names e.now }
{
    nodes_left(e, names, 64, 256).is_some()
}

// How many of the nodes are left after those of the expression, which may be this deep. It goes no
// deeper than that.
#[tactic(auto, using(crate::proofs::Limits::left_after_forms, crate::specs::Size::depths_of_forms, crate::specs::Size::node_counts_of_forms, crate::specs::Form::leaves_of_forms))]
fn nodes_left(e: &Expr, names: usize, depth: u32, nodes: u32) -> Option<u32>
    ensures { SomeIff result (IsWithin names depth nodes e.now) (nodes - node_count e.now) }
{
    if depth == 0 || nodes == 0 {
        return None;
    }
    match e {
        Expr::Literal(n) => (*n >= 0).then_some(nodes - 1),
        Expr::Read(read) => is_read_in_form(read, names).then_some(nodes - 1),
        Expr::Number { name, .. } => ((*name as usize) < names).then_some(nodes - 1),
        Expr::X | Expr::Y | Expr::Z | Expr::Level | Expr::Material | Expr::Step => Some(nodes - 1),
        Expr::Neg(a) => nodes_left(a.get(), names, depth - 1, nodes - 1),
        Expr::Binary(_, a, b) => {
            let left = nodes_left(a.get(), names, depth - 1, nodes - 1)?;
            nodes_left(b.get(), names, depth - 1, left)
        }
        Expr::Select(c, a, b) => {
            let left = nodes_left(c.get(), names, depth - 1, nodes - 1)?;
            let left = nodes_left(a.get(), names, depth - 1, left)?;
            nodes_left(b.get(), names, depth - 1, left)
        }
    }
}

fn is_read_in_form(read: &Read, names: usize) -> bool
    ensures { result ≡ is_read_in_form names read.now }
{
    (read.name as usize) < names && (!is_fine(read.how) || is_zero(&read.offset))
}

fn is_zero(offset: &[i64; 3]) -> bool
    ensures { result ≡ is_zero offset.now }
{
    offset.iter().all(|by| *by == 0)
}

fn is_fine(how: How) -> bool
    ensures { result ≡ is_fine how }
{
    match how {
        How::Same | How::Coarse => false,
        How::FineSum | How::FineMin | How::FineMax | How::FineCount => true,
    }
}
