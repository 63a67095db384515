ghost use Rattle.std.specs.Prelude.{◌≡◌, ◌^◌, ◌≤◌};
ghost use Rattle.kernel_ast.specs.Size.{depth_of, node_count};

use crate::Expr;

/// How many nodes stand on the longest way down, 1 for a leaf. `in_form` tells a small expression.
#[tactic(auto, using(crate::specs::Size::depths_of_forms, crate::specs::Size::node_counts_of_forms))]
pub fn depth(e: &Expr) -> u32
    requires shallow { depth_of e.now ≤ 64 }
    requires few_nodes { node_count e.now ≤ 2 ^ 16 }
    ensures { result ≡ depth_of e.now }
{
    match e {
        Expr::Neg(a) => depth(a.get()) + 1,
        Expr::Binary(_, a, b) => depth(a.get()).max(depth(b.get())) + 1,
        Expr::Select(c, a, b) => depth(c.get()).max(depth(a.get()).max(depth(b.get()))) + 1,
        Expr::Literal(_)
        | Expr::X
        | Expr::Y
        | Expr::Z
        | Expr::Level
        | Expr::Material
        | Expr::Step
        | Expr::Read(_)
        | Expr::Number { .. } => 1,
    }
}

/// How many leaves, negations, binary operations and selections it has.
#[tactic(auto, using(crate::specs::Size::depths_of_forms, crate::specs::Size::node_counts_of_forms))]
pub fn nodes(e: &Expr) -> u32
    requires shallow { depth_of e.now ≤ 64 }
    requires few_nodes { node_count e.now ≤ 2 ^ 16 }
    ensures { result ≡ node_count e.now }
{
    match e {
        Expr::Neg(a) => nodes(a.get()) + 1,
        Expr::Binary(_, a, b) => nodes(a.get()) + nodes(b.get()) + 1,
        Expr::Select(c, a, b) => nodes(c.get()) + nodes(a.get()) + nodes(b.get()) + 1,
        Expr::X
        | Expr::Y
        | Expr::Z
        | Expr::Level
        | Expr::Material
        | Expr::Step
        | Expr::Read(_)
        | Expr::Number { .. }
        | Expr::Literal(_) => 1,
    }
}
