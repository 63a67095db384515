//! The first tokens of a line, read one by one, with what stands behind them counted by hand.
ghost use Rattle.std.specs.Prelude.{All, IfOk};
ghost use Rattle.kernel_parse.specs.Source.{LiesIn};

use kernel_ast::Store;
use kernel_parse::{
    behind_sign, behind_word, is_reserved, split_meaning, split_name, split_number, split_signed,
    split_store,
};
use std::alloc::Global;
use std::test::Fail;
use uts_lex::{Token, lex_line};

/// The tests' texts are shorter.
const LONGEST: usize = 1 << 20;

/// The tokens of the only line.
fn tokens_of(alloc: Global, text: &[u8]) -> Result<Vec<Token>, Fail>
    ensures { IfOk result (λ tokens. All (LiesIn text.now) tokens.items) }
{
    let mut tokens = Vec::new(alloc);
    if text.len() >= LONGEST {
        return Err("too long".into());
    }
    lex_line(text, 0, 1, &mut tokens)?;
    Ok(tokens)
}

/// How many tokens stand behind the sign.
fn after_sign(alloc: Global, text: &[u8], sign: &[u8]) -> Result<Option<usize>, Fail> {
    let tokens = tokens_of(alloc, text)?;
    let rest = behind_sign(text, &tokens, sign);
    Ok(rest.map(|rest| rest.len()))
}

/// How many tokens stand behind the word.
fn after_word(alloc: Global, text: &[u8], word: &[u8]) -> Result<Option<usize>, Fail> {
    let tokens = tokens_of(alloc, text)?;
    let rest = behind_word(text, &tokens, word);
    Ok(rest.map(|rest| rest.len()))
}

/// The number that stands first, as it is without a sign and with one.
fn numbers(alloc: Global, text: &[u8]) -> Result<(Option<u64>, Option<i64>), Fail> {
    let tokens = tokens_of(alloc, text)?;
    let number = split_number(text, &tokens);
    let signed = split_signed(text, &tokens);
    Ok((number.map(|r| r.0), signed.map(|r| r.0)))
}

/// The name that stands first, by its length.
fn name(alloc: Global, text: &[u8]) -> Result<Option<usize>, Fail> {
    let tokens = tokens_of(alloc, text)?;
    let name = split_name(text, &tokens);
    Ok(name.map(|r| r.0.len()))
}

/// What the first word means: as a store, and by a table of `node` and `cell`.
fn meanings(alloc: Global, text: &[u8]) -> Result<(Option<Store>, Option<u8>), Fail> {
    let tokens = tokens_of(alloc, text)?;
    let store = split_store(text, &tokens);
    let table = [(b"node".as_slice(), 1), (b"cell".as_slice(), 2)];
    let meaning = split_meaning(text, &tokens, &table);
    Ok((store.map(|r| r.0), meaning.map(|r| r.0)))
}

#[test]
fn the_words_for_reads_of_other_levels_are_no_names(rt: HostRuntime) -> Result<(), Fail> {
    let alloc = rt.alloc();
    assert!(rt; is_reserved(b"fine_sum"));
    assert!(rt; !is_reserved(b"sum"));
    assert_eq!(rt; name(alloc, b"coarse u")?, None);
    assert_eq!(rt; name(alloc, b"coarser u")?, Some(7));
    assert_eq!(rt; name(alloc, b"7 u")?, None);
    Ok(())
}

#[test]
fn a_sign_and_a_word_stand_first_or_not(rt: HostRuntime) -> Result<(), Fail> {
    let alloc = rt.alloc();
    assert_eq!(rt; after_sign(alloc, b"( box u", b"(")?, Some(2));
    assert_eq!(rt; after_sign(alloc, b"( box u", b")")?, None);
    assert_eq!(rt; after_sign(alloc, b"box u", b"(")?, None);
    assert_eq!(rt; after_word(alloc, b"box u", b"box")?, Some(1));
    assert_eq!(rt; after_word(alloc, b"( box u", b"box")?, None);
    assert_eq!(rt; after_word(alloc, b"", b"box")?, None);
    Ok(())
}

#[test]
fn numbers_are_read_with_their_sign(rt: HostRuntime) -> Result<(), Fail> {
    let alloc = rt.alloc();
    let greatest = numbers(alloc, b"18446744073709551615 u")?;
    assert_eq!(rt; greatest, (Some(18_446_744_073_709_551_615), None));
    let least = numbers(alloc, b"- 9223372036854775808")?;
    assert_eq!(rt; least, (None, Some(-9_223_372_036_854_775_808)));
    assert_eq!(rt; numbers(alloc, b"5 6")?, (Some(5), Some(5)));
    Ok(())
}

#[test]
fn words_are_read_as_what_they_mean(rt: HostRuntime) -> Result<(), Fail> {
    let alloc = rt.alloc();
    assert_eq!(rt; meanings(alloc, b"old u")?, (Some(Store::Old), None));
    assert_eq!(rt; meanings(alloc, b"cell u")?, (None, Some(2)));
    Ok(())
}
