//! The loops over the numbers of a row. In contracts, `zip2 f xs ys` lists what f gives with the numbers of two lists in the
//! same place.
ghost use Rattle.std.specs.Prelude.{◌≡◌, pos, length, map, replicate};
ghost use Rattle.std.specs.Int.{int_gap};
ghost use Rattle.std.specs.List.{zip};
ghost use Rattle.uts_geom.specs.Spans.{from_to};
ghost use Rattle.kernel_ast.specs.Arithmetic.{difference_of};
ghost use Rattle.kernel_ast.specs.Value.{result_of};
ghost use Rattle.kernel_rows.specs.Choice.{chosen};
ghost use lib.Lanes.{zip2};

use crate::KernelRow;
use crate::operations::{
    Difference, Equal, Greater, GreaterOrEqual, Greatest, Least, Less, LessOrEqual, NotEqual,
    Operation, Product, Quotient, Remainder, Sum,
};
use kernel_ast::Op;
use uts_num::wsub;

/// Fills `out` with one number.
pub(crate) fn fill_constant(n: i64, out: &mut [i64])
    ensures { out.new ≡ replicate (length out.old) n }
{
    out.fill(n);
}

/// Fills `out` with the x of each index of the row.
pub(crate) fn fill_ascending(row: KernelRow, out: &mut [i64])
    requires { length out.old ≡ int_gap row.low row.high }
    ensures { out.new ≡ from_to row.low row.high }
{
    let mut x = row.low;
    for place in out.iter_mut() {
        *place = x;
        x += 1;
    }
}

/// Sets each number to 0 less itself.
pub(crate) fn negate_all(out: &mut [i64])
    ensures { out.new ≡ map (difference_of (pos 0)) out.old }
{
    for number in out.iter_mut() {
        *number = wsub(0, *number);
    }
}

/// Sets each number of `out` to what the operation gives with it on the left, and on the right the number of `right` in the
/// same place.
fn combine_all<O: Operation>(out: &mut [i64], right: &[i64])
    requires { length right.now ≡ length out.old }
    ensures { out.new ≡ zip2 (result_of O.operator) out.old right.now }
{
    for (i, left) in out.iter_mut().enumerate() {
        *left = O::apply(*left, right[i]);
    }
}

/// The same for any operator, which is looked at once for the whole row.
pub(crate) fn combine(op: Op, out: &mut [i64], right: &[i64])
    requires { length right.now ≡ length out.old }
    ensures { out.new ≡ zip2 (result_of op) out.old right.now }
{
    match op {
        Op::Add => combine_all::<Sum>(out, right),
        Op::Sub => combine_all::<Difference>(out, right),
        Op::Mul => combine_all::<Product>(out, right),
        Op::Div => combine_all::<Quotient>(out, right),
        Op::Rem => combine_all::<Remainder>(out, right),
        Op::Lt => combine_all::<Less>(out, right),
        Op::Le => combine_all::<LessOrEqual>(out, right),
        Op::Gt => combine_all::<Greater>(out, right),
        Op::Ge => combine_all::<GreaterOrEqual>(out, right),
        Op::Eq => combine_all::<Equal>(out, right),
        Op::Ne => combine_all::<NotEqual>(out, right),
        Op::Min => combine_all::<Least>(out, right),
        Op::Max => combine_all::<Greatest>(out, right),
    }
}

/// Sets each number of `out` to that of `first` in the same place where it is not 0, and to that of `second` where it is 0.
pub(crate) fn choose_all(out: &mut [i64], first: &[i64], second: &[i64])
    requires first_long { length first.now ≡ length out.old }
    requires second_long { length second.now ≡ length out.old }
    ensures { out.new ≡ zip2 chosen out.old (zip first.now second.now) }
{
    for (i, number) in out.iter_mut().enumerate() {
        *number = choose(*number, first[i], second[i]);
    }
}

fn choose(condition: i64, first: i64, second: i64) -> i64
    ensures { result ≡ chosen condition (first, second) }
{
    if condition != 0 { first } else { second }
}
