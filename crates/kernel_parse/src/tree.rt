//! Expressions within the limits, with their size.
ghost use Rattle.std.specs.Prelude.{◌≡◌, ◌≤◌, IfOk, Some, None};
ghost use Rattle.kernel_ast.specs.Size.{depth_of, node_count};
ghost use Rattle.kernel_parse.specs.declared.fault.ExprFault.TheVariants.{NoMemory};
ghost use Rattle.kernel_parse.specs.Reading.{Gives, IsLeaf, limited};

use crate::fault::ExprFault;
use kernel_ast::{Expr, Op};
use sqlite_items::Boxed;
use std::alloc::Global;

/// The deepest that an expression may be.
pub(crate) const MAX_DEPTH: u32 = 64;

/// The most nodes that an expression may have.
const MAX_NODES: u32 = 256;

/// An expression of at most `MAX_NODES` nodes and at most `MAX_DEPTH` deep, and how many nodes it has
/// and how deep it is.
#[derive(Debug, Drop)]
pub(crate) struct Tree {
    pub(crate) expr: Expr,
    depth: u32,
    nodes: u32,
    ghost depth_is: { depth ≡ depth_of expr },
    ghost nodes_are: { nodes ≡ node_count expr },
    ghost shallow: { depth ≤ 64 },
    ghost few: { nodes ≤ 256 },
}

/// An expression with no parts.
pub(crate) fn leaf(expr: Expr) -> Tree
    requires { IsLeaf expr }
    ensures { result.expr ≡ expr }
{
    Tree {
        expr,
        depth: 1,
        nodes: 1,
    }
}

/// The negation, if it is at most so deep.
#[tactic(auto, using(kernel_ast::specs::Size::depths_of_forms, kernel_ast::specs::Size::node_counts_of_forms))]
pub(crate) fn negation(alloc: Global, part: Tree, depth: u32) -> Result<Tree, ExprFault>
    requires { depth ≤ 64 }
    ensures { Gives NoMemory (λ tree. tree.expr) result (limited depth (Expr.Neg part.expr)) }
{
    if part.depth >= depth || part.nodes >= MAX_NODES {
        return Err(ExprFault::BadExpr);
    }
    Ok(Tree {
        depth: part.depth + 1,
        nodes: part.nodes + 1,
        expr: Expr::Neg(Boxed::new(alloc, part.expr)?),
    })
}

/// The operation, if it is at most so deep.
#[tactic(auto, using(kernel_ast::specs::Size::depths_of_forms, kernel_ast::specs::Size::node_counts_of_forms))]
pub(crate) fn binary(
    alloc: Global,
    op: Op,
    left: Tree,
    right: Tree,
    depth: u32,
) -> Result<Tree, ExprFault>
    requires { depth ≤ 64 }
    ensures { Gives NoMemory (λ tree. tree.expr) result (limited depth (Expr.Binary op left.expr right.expr)) }
{
    let below = left.depth.max(right.depth);
    let parts = left.nodes + right.nodes;
    if below >= depth || parts >= MAX_NODES {
        return Err(ExprFault::BadExpr);
    }
    let right = Boxed::new(alloc, right.expr)?;
    Ok(Tree {
        expr: Expr::Binary(op, Boxed::new(alloc, left.expr)?, right),
        depth: below + 1,
        nodes: parts + 1,
    })
}

/// The selection, if it is at most so deep.
#[tactic(auto, using(kernel_ast::specs::Size::depths_of_forms, kernel_ast::specs::Size::node_counts_of_forms))]
pub(crate) fn selection(
    alloc: Global,
    condition: Tree,
    then: Tree,
    other: Tree,
    depth: u32,
) -> Result<Tree, ExprFault>
    requires { depth ≤ 64 }
    ensures { Gives NoMemory (λ tree. tree.expr) result (limited depth (Expr.Select condition.expr then.expr other.expr)) }
{
    let below = condition.depth.max(then.depth.max(other.depth));
    let parts = condition.nodes + then.nodes + other.nodes;
    if below >= depth || parts >= MAX_NODES {
        return Err(ExprFault::BadExpr);
    }
    let other = Boxed::new(alloc, other.expr)?;
    let then = Boxed::new(alloc, then.expr)?;
    Ok(Tree {
        expr: Expr::Select(Boxed::new(alloc, condition.expr)?, then, other),
        depth: below + 1,
        nodes: parts + 1,
    })
}
