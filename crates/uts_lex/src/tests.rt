//! Lines and names worked out by hand.
ghost use Rattle.std.specs.Prelude.{◌<◌, ◌^◌, length};

use crate::token::{Kind, LexFault, Token};
use crate::{Names, lex_line};
use std::alloc::Global;
use std::test::Fail;

fn token(kind: Kind, start: u32, end: u32, line: u32) -> Token {
    Token {
        kind,
        start,
        end,
        line,
    }
}

#[test]
fn reads_each_kind_of_token(rt: HostRuntime) -> Result<(), Fail> {
    let text = b"var u_1 \tcell,7<=x\r\nend";
    let mut out = Vec::new(rt.alloc());
    assert_eq!(rt; lex_line(text, 0, 3, &mut out).ok(), Some(20));
    let want = [
        token(Kind::Word, 0, 3, 3),
        token(Kind::Word, 4, 7, 3),
        token(Kind::Word, 9, 13, 3),
        token(Kind::Sign, 13, 14, 3),
        token(Kind::Number, 14, 15, 3),
        token(Kind::Sign, 15, 17, 3),
        token(Kind::Word, 17, 18, 3),
    ];
    assert_eq!(rt; out.as_slice(), want.as_slice());

    // The last line has no line feed, and its token stands behind the others.
    assert_eq!(rt; lex_line(text, 20, 4, &mut out).ok(), Some(23));
    assert_eq!(rt; out.len(), 8);
    assert_eq!(rt; out[7], token(Kind::Word, 20, 23, 4));
    Ok(())
}

#[test]
fn a_token_stands_for_its_bytes(rt: HostRuntime) {
    let name = Token {
        kind: Kind::Word,
        start: 4,
        end: 7,
        line: 3,
    };
    assert_eq!(rt; name.bytes_in(b"var u_1 cell"), b"u_1".as_slice());
}

#[test]
fn reads_no_token_of_blanks_and_comments(rt: HostRuntime) -> Result<(), Fail> {
    let mut out = Vec::new(rt.alloc());
    assert_eq!(rt; lex_line(b"", 0, 1, &mut out).ok(), Some(0));
    assert_eq!(rt; lex_line(b"\n\n", 1, 2, &mut out).ok(), Some(2));
    assert_eq!(rt; lex_line(b" \t\r\nx", 0, 1, &mut out).ok(), Some(4));
    assert_eq!(rt; out.len(), 0);

    let mut text = Vec::new(rt.alloc());
    text.push(b'#')?;
    for byte in 0..=255u8 {
        if byte != b'\n' {
            text.push(byte)?;
        }
    }
    text.extend_from_slice(b"\nx")?;
    assert!(rt; text.len() < 1000);
    assert_eq!(rt; lex_line(&text, 0, 1, &mut out).ok(), Some(257));
    assert_eq!(rt; out.len(), 0);
    Ok(())
}

#[test]
fn a_comment_has_no_tokens(rt: HostRuntime) -> Result<(), Fail> {
    let mut out = Vec::new(rt.alloc());
    assert_eq!(rt; lex_line(b"a #a", 0, 1, &mut out).ok(), Some(4));
    assert_eq!(rt; out.as_slice(), [token(Kind::Word, 0, 1, 1)].as_slice());
    Ok(())
}

/// The kinds of the tokens of a line with their lengths, or the fault.
fn shape(alloc: Global, line: &[u8]) -> Result<String, Fail>
    requires { length line.now < 2 ^ 32 }
{
    let mut shape = String::new(alloc);
    let mut out = Vec::new(alloc);
    if let Err(fault) = lex_line(line, 0, 1, &mut out) {
        return Ok(format!(in alloc; "{fault:?}")?);
    }
    for token in &out {
        let kind = token.kind;
        let length = token.end.saturating_sub(token.start);
        shape.push_str(format!(in alloc; "{kind:?}{length} ")?.as_str())?;
    }
    Ok(shape)
}

#[test]
fn takes_the_longest_token_at_each_place(rt: HostRuntime) -> Result<(), Fail> {
    let cases: [(&[u8], &str); 22] = [
        (b"0materials", "Number1 Word9 "),
        (b"dump 1#x", "Word4 Number1 "),
        (b"2*x", "Number1 Sign1 Word1 "),
        (b"<=", "Sign2 "),
        (b"< =", "Sign1 Sign1 "),
        (b"<==", "Sign2 Sign1 "),
        (b">=>==!=", "Sign2 Sign2 Sign1 Sign2 "),
        (b"==!=", "Sign2 Sign2 "),
        (
            b"+-*/%<>=()[],.",
            "Sign1 Sign1 Sign1 Sign1 Sign1 Sign1 Sign2 Sign1 Sign1 Sign1 Sign1 Sign1 Sign1 ",
        ),
        (b"!", "BadByte"),
        (b"a !", "BadByte"),
        (b"01", "BadByte"),
        (b"00", "BadByte"),
        (b"1_", "BadByte"),
        (b"_a", "BadByte"),
        (b"a$", "BadByte"),
        (b"a\x80", "BadByte"),
        (b"18446744073709551615", "Number20 "),
        (b"18446744073709551616", "BadByte"),
        (b"x0 ", "Word2 "),
        (b"abcdefghijklmnopqrstuvwxyz_ABCDE", "Word32 "),
        (b"abcdefghijklmnopqrstuvwxyz_ABCDEF", "BadByte"),
    ];
    for (text, want) in cases {
        assert!(rt; text.len() < 100);
        let found = shape(rt.alloc(), text)?;
        assert_eq!(rt; found.as_str(), want);
    }
    Ok(())
}

#[test]
fn a_refused_line_leaves_the_tokens_before_it(rt: HostRuntime) -> Result<(), Fail> {
    let text = b"end\nx y ? z";
    let mut out = Vec::new(rt.alloc());
    assert_eq!(rt; lex_line(text, 0, 1, &mut out).ok(), Some(4));
    assert_eq!(rt;
        lex_line(text, 4, 2, &mut out).err(),
        Some(LexFault::BadByte)
    );
    assert_eq!(rt; out.len(), 1);
    assert_eq!(rt; out[0], token(Kind::Word, 0, 3, 1));
    Ok(())
}

#[test]
fn numbers_names_by_first_appearance(rt: HostRuntime) -> Result<(), Fail> {
    let mut names = Names::new(rt.alloc());
    assert!(rt; names.is_empty());
    let words: [(&[u8], u32); 6] = [
        (b"u", 0),
        (b"total", 1),
        (b"u", 0),
        (b"U", 2),
        (b"", 3),
        (b"total", 1),
    ];
    for (word, want) in words {
        assert!(rt; names.len() < 10);
        assert_eq!(rt; names.number(word).ok(), Some(want));
    }
    assert_eq!(rt; names.len(), 4);
    assert!(rt; names.get(1).is_some_and(|word| word == b"total".as_slice()));
    assert!(rt; names.get(2).is_some_and(|word| word == b"U".as_slice()));
    assert!(rt; names.get(4).is_none());
    Ok(())
}
