//! Expressions read from text, with values and places counted by hand.
use kernel_ast::{Expr, How, Op, Read, Store};
use kernel_parse::{ExprFault, parse_expr};
use std::alloc::{AllocError, Global};
use std::test::Fail;
use uts_lex::{Names, lex_line};
use uts_num::{wadd, wdiv, wmul, wrem, wsub};

/// The tests' texts are shorter.
const LONGEST: usize = 1 << 20;

/// What the text is read as, in a text whose names so far are `names`.
fn read_with(
    alloc: Global,
    text: &[u8],
    names: &mut Names,
) -> Result<Result<Expr, ExprFault>, Fail> {
    let mut tokens = Vec::new(alloc);
    if text.len() >= LONGEST {
        return Ok(Err(ExprFault::NoMemory));
    }
    lex_line(text, 0, 1, &mut tokens)?;
    if names.len() >= LONGEST || tokens.len() >= LONGEST {
        return Ok(Err(ExprFault::NoMemory));
    }
    Ok(parse_expr(alloc, text, &tokens, names))
}

fn read(alloc: Global, text: &str) -> Result<Result<Expr, ExprFault>, Fail> {
    let mut names = Names::new(alloc);
    read_with(alloc, text.as_bytes(), &mut names)
}

fn is_refused(alloc: Global, text: &str) -> Result<bool, Fail> {
    Ok(matches!(read(alloc, text)?, Err(ExprFault::BadExpr)))
}

/// The number of an expression without places and reads.
fn value(e: &Expr) -> i64 {
    match e {
        Expr::Literal(n) => *n,
        Expr::Neg(a) => wsub(0, value(a.get())),
        Expr::Binary(op, a, b) => applied(*op, value(a.get()), value(b.get())),
        Expr::Select(c, a, b) => {
            if value(c.get()) != 0 {
                value(a.get())
            } else {
                value(b.get())
            }
        }
        _ => 0,
    }
}

fn applied(op: Op, a: i64, b: i64) -> i64 {
    match op {
        Op::Add => wadd(a, b),
        Op::Sub => wsub(a, b),
        Op::Mul => wmul(a, b),
        Op::Div => wdiv(a, b),
        Op::Rem => wrem(a, b),
        Op::Lt => i64::from(a < b),
        Op::Le => i64::from(a <= b),
        Op::Gt => i64::from(a > b),
        Op::Ge => i64::from(a >= b),
        Op::Eq => i64::from(a == b),
        Op::Ne => i64::from(a != b),
        Op::Min => a.min(b),
        Op::Max => a.max(b),
    }
}

/// The piece so many times, and what stands before and behind.
fn repeated(
    alloc: Global,
    before: &str,
    piece: &str,
    times: u32,
    behind: &str,
) -> Result<String, AllocError> {
    let mut text = String::new(alloc);
    text.push_str(before)?;
    for _ in 0..times {
        text.push_str(piece)?;
    }
    text.push_str(behind)?;
    Ok(text)
}

#[test]
fn groups_operators(rt: HostRuntime) -> Result<(), Fail> {
    let alloc = rt.alloc();
    for (text, number) in [
        ("1 - 2 - 3", -4),
        ("1 - (2 - 3)", 2),
        ("-7 / 2", -3),
        ("100 / 10 / 5", 2),
        ("2 + 3 * 4 - 10 % 4", 12),
        ("2 < 3", 1),
        ("1 + 1 >= 2 * 2", 0),
        ("3 != 3", 0),
        ("- - 5", 5),
        ("2 - -3", 5),
        ("select(0, 5, 6)", 6),
        ("select(1 < 2, min(5, 3), 6)", 3),
        ("max(2, 3 == 3)", 2),
        ("9223372036854775807", i64::MAX),
    ] {
        let e = read(alloc, text)?.ok().ok_or("an expression")?;
        assert_eq!(rt; value(&e), number, "{text}");
    }
    Ok(())
}

#[test]
fn reads_each_form_of_read(rt: HostRuntime) -> Result<(), Fail> {
    let alloc = rt.alloc();
    let mut names = Names::new(alloc);
    for (text, store, how, name, offset) in [
        ("old.u[1,-2,3]", Store::Old, How::Same, 0, [1, -2, 3]),
        (
            "new.coarse.v[0,0,- 5]",
            Store::New,
            How::Coarse,
            1,
            [0, 0, -5],
        ),
        ("old.fine_sum.u", Store::Old, How::FineSum, 0, [0, 0, 0]),
        ("new.fine_min.w", Store::New, How::FineMin, 2, [0, 0, 0]),
        ("new.fine_max.min", Store::New, How::FineMax, 3, [0, 0, 0]),
        (
            "old.fine_count.old",
            Store::Old,
            How::FineCount,
            4,
            [0, 0, 0],
        ),
        (
            "old.min[-9223372036854775808,-0,9223372036854775807]",
            Store::Old,
            How::Same,
            3,
            [i64::MIN, 0, i64::MAX],
        ),
    ] {
        let want = Read {
            store,
            how,
            name,
            offset,
        };
        let e = read_with(alloc, text.as_bytes(), &mut names)?;
        match e.ok().ok_or("an expression")? {
            Expr::Read(found) => assert_eq!(rt; found, want, "{text}"),
            _ => assert!(rt; false, "{text}"),
        }
    }
    match read_with(alloc, b"new.heat", &mut names)?
        .ok()
        .ok_or("an expression")?
    {
        Expr::Number { store, name } => assert!(rt; store == Store::New && name == 5),
        _ => assert!(rt; false),
    }
    Ok(())
}

#[test]
fn refuses_what_is_no_expression(rt: HostRuntime) -> Result<(), Fail> {
    let alloc = rt.alloc();
    for text in [
        "",
        "1 +",
        "1 2",
        "(1",
        "1)",
        "1 < 2 < 3",
        "min",
        "min(1)",
        "max(1, 2, 3)",
        "select(1, 2)",
        "u",
        "old",
        "old.fine",
        "old.coarse.u",
        "old.fine_sum.u[0,0,0]",
        "old.coarse.fine[0,0,0]",
        "old.u[0,0]",
        "old.u[0,0,9223372036854775808]",
        "9223372036854775808",
        "-9223372036854775808",
        "1 = 2",
        "+ 1",
    ] {
        assert!(rt; is_refused(alloc, text)?, "{text}");
    }
    Ok(())
}

#[test]
fn keeps_the_limits(rt: HostRuntime) -> Result<(), Fail> {
    let alloc = rt.alloc();
    for (before, piece, times, behind, taken) in [
        // Parentheses that stay open.
        ("", "(", 64, "1", false),
        ("1", " + 1", 63, "", true),
        ("1", " + 1", 64, "", false),
        ("", "- ", 63, "1", true),
        ("", "- ", 64, "1", false),
        ("", "- ", 10_000, "1", false),
        ("1", " * 1", 10_000, "", false),
        ("", "(", 10_000, "", false),
    ] {
        let text = repeated(alloc, before, piece, times, behind)?;
        assert_eq!(rt;
            !is_refused(alloc, text.as_str())?,
            taken,
            "{piece} {times}"
        );
    }

    for (open, taken) in [(64, true), (65, false)] {
        let front = repeated(alloc, "", "(", open, "x")?;
        let text = repeated(alloc, front.as_str(), ")", open, "")?;
        assert_eq!(rt;
            !is_refused(alloc, text.as_str())?,
            taken,
            "{open} parentheses"
        );
    }

    // Four sums of 32 terms are 252 nodes, and with the sums of them 255.
    let sum = repeated(alloc, "(1", " + 1", 31, ")")?;
    let sums = format!(in alloc; "({sum} + {sum}) + ({sum} + {sum})")?;
    let e = read(alloc, sums.as_str())?.ok().ok_or("an expression")?;
    assert_eq!(rt; value(&e), 128);
    let negated = format!(in alloc; "-({sums})")?;
    assert!(rt; !is_refused(alloc, negated.as_str())?);
    let negated = format!(in alloc; "- -({sums})")?;
    assert!(rt; is_refused(alloc, negated.as_str())?);
    Ok(())
}

#[test]
fn a_refusal_keeps_the_names(rt: HostRuntime) -> Result<(), Fail> {
    let alloc = rt.alloc();
    let mut names = Names::new(alloc);
    names.number(b"heat")?;
    let e = read_with(alloc, b"old.a[0,0,0] + old.b[0,0,0] )", &mut names)?;
    assert!(rt; matches!(e, Err(ExprFault::BadExpr)));
    assert!(rt; names.get(0).is_some_and(|word| word == b"heat".as_slice()));
    Ok(())
}
