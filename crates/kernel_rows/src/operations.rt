//! The operations of kernels as types, so that a loop over a row is compiled for each of them by itself.
ghost use Rattle.std.specs.Prelude.{◌≡◌};
ghost use Rattle.kernel_ast.specs.Value.{result_of, truth_of};
ghost use Rattle.kernel_ast.specs.declared.expression.Op.{Op};
ghost use Rattle.kernel_ast.specs.declared.expression.Op.TheVariants.{Add, Sub, Mul, Div, Rem, Lt, Le, Gt, Ge, Eq, Ne, Min, Max};

use uts_num::{wadd, wdiv, wmul, wrem, wsub};

/// An operation on two numbers.
pub(crate) trait Operation {
    /// The operation that it is in an expression.
    ghost operator: { Op };

    fn apply(left: i64, right: i64) -> i64
        ensures { result ≡ result_of operator left right };
}

pub(crate) struct Sum;

impl Operation for Sum {
    ghost operator = { Add };

    fn apply(left: i64, right: i64) -> i64 {
        wadd(left, right)
    }
}

pub(crate) struct Difference;

impl Operation for Difference {
    ghost operator = { Sub };

    fn apply(left: i64, right: i64) -> i64 {
        wsub(left, right)
    }
}

pub(crate) struct Product;

impl Operation for Product {
    ghost operator = { Mul };

    fn apply(left: i64, right: i64) -> i64 {
        wmul(left, right)
    }
}

pub(crate) struct Quotient;

impl Operation for Quotient {
    ghost operator = { Div };

    fn apply(left: i64, right: i64) -> i64 {
        wdiv(left, right)
    }
}

pub(crate) struct Remainder;

impl Operation for Remainder {
    ghost operator = { Rem };

    fn apply(left: i64, right: i64) -> i64 {
        wrem(left, right)
    }
}

pub(crate) struct Less;

impl Operation for Less {
    ghost operator = { Lt };

    fn apply(left: i64, right: i64) -> i64 {
        truth(left < right)
    }
}

pub(crate) struct LessOrEqual;

impl Operation for LessOrEqual {
    ghost operator = { Le };

    fn apply(left: i64, right: i64) -> i64 {
        truth(left <= right)
    }
}

pub(crate) struct Greater;

impl Operation for Greater {
    ghost operator = { Gt };

    fn apply(left: i64, right: i64) -> i64 {
        truth(left > right)
    }
}

pub(crate) struct GreaterOrEqual;

impl Operation for GreaterOrEqual {
    ghost operator = { Ge };

    fn apply(left: i64, right: i64) -> i64 {
        truth(left >= right)
    }
}

pub(crate) struct Equal;

impl Operation for Equal {
    ghost operator = { Eq };

    fn apply(left: i64, right: i64) -> i64 {
        truth(left == right)
    }
}

pub(crate) struct NotEqual;

impl Operation for NotEqual {
    ghost operator = { Ne };

    fn apply(left: i64, right: i64) -> i64 {
        truth(left != right)
    }
}

pub(crate) struct Least;

impl Operation for Least {
    ghost operator = { Min };

    fn apply(left: i64, right: i64) -> i64 {
        left.min(right)
    }
}

pub(crate) struct Greatest;

impl Operation for Greatest {
    ghost operator = { Max };

    fn apply(left: i64, right: i64) -> i64 {
        left.max(right)
    }
}

// 1 where a comparison holds, else 0.
fn truth(holds: bool) -> i64
    ensures { result ≡ truth_of holds }
{
    if holds { 1 } else { 0 }
}
