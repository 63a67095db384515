#![tactic(auto, using(crate::proofs::Wrapping::wrapping))]

ghost use Rattle.std.specs.Prelude.{◌≡◌};
ghost use Rattle.uts_num.specs.Arithmetic.{sum_of, difference_of, product_of, quotient_of, remainder_of};

/// The sum modulo 2^64.
pub fn wadd(a: i64, b: i64) -> i64
    ensures { result ≡ sum_of a b }
{
    a.wrapping_add(b)
}

/// The difference modulo 2^64.
pub fn wsub(a: i64, b: i64) -> i64
    ensures { result ≡ difference_of a b }
{
    a.wrapping_sub(b)
}

/// The product modulo 2^64.
pub fn wmul(a: i64, b: i64) -> i64
    ensures { result ≡ product_of a b }
{
    a.wrapping_mul(b)
}

/// The quotient, rounded toward zero. By 0 it is 0, and the least number by -1 is itself.
pub fn wdiv(a: i64, b: i64) -> i64
    ensures { result ≡ quotient_of a b }
{
    if b == 0 { 0 } else { a.wrapping_div(b) }
}

/// The remainder, with the sign of `a`. By 0 it is 0.
pub fn wrem(a: i64, b: i64) -> i64
    ensures { result ≡ remainder_of a b }
{
    if b == 0 { 0 } else { a.wrapping_rem(b) }
}
