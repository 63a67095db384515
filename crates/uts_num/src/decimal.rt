ghost use Rattle.std.specs.Prelude.{◌≡◌, ◌≢◌, ℕ, ◌+◌, ◌*◌, ◌<◌, ◌^◌, ◌++◌, decimal, IfSome, IfNone, OnOk, OnErr};
ghost use Rattle.std.specs.Char.{IsAsciiDigit, digit_value};
ghost use Rattle.std.specs.Fmt.{signed_decimal};
ghost use Rattle.std.specs.Option.{SomeIff};
ghost use Rattle.std.specs.Str.Parse.{AllDigits, digits_value};

use itoa::Buffer;
use std::alloc::{AllocError, AllocFailed};

/// Memory ran out.
#[derive(Clone, Copy, Debug, PartialEq, Eq)]
pub struct NoMemory;

impl From<AllocError> for NoMemory {
    fn from(_: AllocError) -> Self {
        NoMemory
    }
}

impl<T: Drop> From<AllocFailed<T>> for NoMemory {
    fn from(_: AllocFailed<T>) -> Self {
        NoMemory
    }
}

/// Appends the decimal of `n`, with `-` in front where it is negative. After an error `out` is
/// unchanged.
pub fn put_i64(out: &mut Vec<u8>, n: i64) -> Result<(), NoMemory>
    ensures ok { OnOk result (out.new.items ≡ out.old.items ++ signed_decimal n) }
    ensures err { OnErr result (out.new.items ≡ out.old.items) }
{
    let mut buffer = Buffer::new();
    out.extend_from_slice(buffer.format(n).as_bytes())?;
    Ok(())
}

/// The number that the bytes spell: digits alone, at least one, with no leading 0 but in `0` itself.
/// `None` where they spell no number below 2^64 in this way.
#[tactic(auto, using(crate::proofs::Numerals::canonical))]
pub fn read_u64(bytes: &[u8]) -> Option<u64>
    ensures found { IfSome result (λ n. bytes.now ≡ decimal n) }
    ensures none { IfNone result ((n : ℕ) → n < 2 ^ 64 → bytes.now ≢ decimal n) }
{
    match bytes {
        [] => None,
        [b'0', _, ..] => None,
        _ => number_of_digits(bytes),
    }
}

/// The number that the digits spell, leading zeros and all, 0 where there are none.
/// `None` where a byte is no digit, or the number is 2^64 or more.
#[tactic(auto, using(crate::proofs::Numerals::spelling))]
fn number_of_digits(bytes: &[u8]) -> Option<u64>
    ensures { SomeIff result (AllDigits 10 bytes.now × (digits_value 10 bytes.now < 2 ^ 64))
        (digits_value 10 bytes.now) }
{
    let mut number = 0;
    for byte in bytes {
        number = with_digit(number, *byte)?;
    }
    Some(number)
}

/// The number with one more digit at its end. `None` where the byte is no digit, or the number is
/// then 2^64 or more.
fn with_digit(number: u64, byte: u8) -> Option<u64>
    ensures { SomeIff result (IsAsciiDigit byte × (number * 10 + digit_value byte < 2 ^ 64))
        (number * 10 + digit_value byte) }
{
    if byte.is_ascii_digit() {
        number.checked_mul(10)?.checked_add(u64::from(byte - b'0'))
    } else {
        None
    }
}
