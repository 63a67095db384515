//! Tests of what an expression reads.
ghost use Rattle.std.specs.Prelude.{ℕ, ◌↔◌, IsTrue, All};
ghost use Rattle.kernel_ast.specs.declared.expression.Store.{Store};
ghost use Rattle.kernel_ast.specs.declared.expression.Read.{Read};
ghost use Rattle.task_rules.specs.Reads.{reads_of, numbers_of};
ghost use Rattle.task_rules.specs.Names.{IsVariable, IsReduction, AreReadsKnown};

use crate::names::{is_reduction, is_variable};
use kernel_ast::{Expr, Read, Store};
use problem_types::Problem;

/// A rule for the reads of an expression: which values of variables and of reductions a kernel may read under it. What a kernel
/// reads besides, as constants and the time, each rule allows.
pub trait ReadRule {
    /// The reads of variables that it allows.
    ghost allows: { Self → Read → Type 0 };

    /// The reads of reductions that it allows, each by its store and its name.
    ghost allows_number: { Self → Store → ℕ → Type 0 };

    /// Whether the rule allows this read of a variable, with its offset and its store.
    fn allows(&self, read: &Read) -> bool
        ensures { IsTrue result ↔ allows self.now read.now };

    /// Whether the rule allows a read of the reduction of this name, at the end of the step before or as this step leaves it.
    fn allows_number(&self, store: Store, name: u32) -> bool
        ensures { IsTrue result ↔ allows_number self.now store name };
}

/// Whether the rule allows each read of the expression. It goes as deep as the expression.
pub fn allows_all<R: ReadRule>(rule: &R, e: &Expr) -> bool
    ensures { IsTrue result ↔ (All (R.allows rule.now) (reads_of e.now) × All (λ n. R.allows_number rule.now n.0 n.1) (numbers_of e.now)) }
{
    match e {
        Expr::Read(read) => rule.allows(read),
        Expr::Number { store, name } => rule.allows_number(*store, *name),
        Expr::Neg(a) => allows_all(rule, a.get()),
        Expr::Binary(_, a, b) => allows_all(rule, a.get()) && allows_all(rule, b.get()),
        Expr::Select(c, a, b) => {
            allows_all(rule, c.get()) && allows_all(rule, a.get()) && allows_all(rule, b.get())
        }
        _ => true,
    }
}

impl ReadRule for Problem {
    ghost allows = { λ p r. IsVariable p r.name };

    ghost allows_number = { λ p store name. IsReduction p name };

    /// Variables that are declared.
    fn allows(&self, read: &Read) -> bool {
        is_variable(self, read.name)
    }

    /// Reductions that are declared.
    fn allows_number(&self, _: Store, name: u32) -> bool {
        is_reduction(self, name)
    }
}

/// Whether the expression reads declared variables and declared reductions.
pub(crate) fn are_reads_known(p: &Problem, e: &Expr) -> bool
    ensures { IsTrue result ↔ AreReadsKnown p.now e.now }
{
    allows_all(p, e)
}
