//! Values counted by hand.
use crate::{put_i64, read_u64, wadd, wdiv, wmul, wrem, wsub};
use std::test::Fail;

#[test]
fn arithmetic_wraps_at_both_ends(rt: HostRuntime) {
    assert_eq!(rt; wadd(i64::MAX, 1), i64::MIN);
    assert_eq!(rt; wsub(i64::MIN, 1), i64::MAX);
    assert_eq!(rt; wsub(3, 5), -2);
    assert_eq!(rt; wmul(i64::MIN, -1), i64::MIN);
    assert_eq!(rt; wmul(i64::MAX, 2), -2);
}

#[test]
fn division_rounds_toward_zero(rt: HostRuntime) {
    for (a, b, quotient, remainder) in [
        (7, 2, 3, 1),
        (-7, 2, -3, -1),
        (7, -2, -3, 1),
        (-7, -2, 3, -1),
        (7, 0, 0, 0),
        (0, 5, 0, 0),
        (i64::MIN, 0, 0, 0),
        (i64::MIN, -1, i64::MIN, 0),
    ] {
        assert_eq!(rt; wdiv(a, b), quotient, "{a} by {b}");
        assert_eq!(rt; wrem(a, b), remainder, "{a} by {b}");
    }
}

#[test]
fn puts_decimals_one_after_another(rt: HostRuntime) -> Result<(), Fail> {
    let mut out = Vec::new(rt.alloc());
    put_i64(&mut out, i64::MIN)?;
    put_i64(&mut out, 0)?;
    put_i64(&mut out, i64::MAX)?;
    assert_eq!(rt;
        out.as_slice(),
        b"-922337203685477580809223372036854775807".as_slice()
    );
    Ok(())
}

#[test]
fn reads_only_canonical_decimals(rt: HostRuntime) {
    assert_eq!(rt; read_u64(b"0"), Some(0));
    assert_eq!(rt; read_u64(b"70"), Some(70));
    assert_eq!(rt; read_u64(b"18446744073709551615"), Some(u64::MAX));
    for bytes in [
        b"".as_slice(),
        b"00",
        b"007",
        b"+1",
        b"-0",
        b"1 ",
        b"18446744073709551616",
        b"100000000000000000000",
    ] {
        assert_eq!(rt; read_u64(bytes), None);
    }
}
