//! What stands at the front of some bytes: blanks and comments, or a token.
ghost use Rattle.std.specs.Prelude.{◌≡◌, ◌<◌, ◌≤◌, length, take, drop, slice_index, IfSome, IsTrue, false};
ghost use Rattle.std.specs.Char.{is_ascii_digit};
ghost use Rattle.std.specs.List.{list_all, prefix_len};
ghost use Rattle.std.specs.Option.{option_map};
ghost use Rattle.uts_lex.specs.Lexemes.{lexeme, is_blank, begins_comment, ends_line, is_word_byte, sign_length, front_lexeme, lexemes_of};

use crate::token::Kind;
use uts_num::read_u64;

/// The most bytes of a word.
const LONGEST_WORD: usize = 32;

/// How many bytes at the front belong to blanks and a comment.
#[tactic(auto, using(crate::proofs::Fronts::gaps))]
pub(crate) fn gap_length(line: &[u8]) -> usize
    ensures inside { result ≤ length line.now }
    ensures no_token { lexemes_of line.now ≡ lexemes_of (drop result line.now) }
    ensures no_blank { result < length line.now → is_blank (slice_index line.now result) ≡ false }
    ensures no_comment { result < length line.now → begins_comment (slice_index line.now result) ≡ false }
    ensures blanks { result < length line.now → IsTrue (list_all is_blank (take result line.now)) }
    ensures ends { result ≡ length line.now → IsTrue (ends_line line.now) }
{
    let blanks = blank_run(line);
    match line.get(blanks) {
        Some(b'#') => line.len(),
        _ => blanks,
    }
}

/// The kind and the length of the longest token at the front.
#[tactic(auto, using(crate::proofs::Runs::runs))]
pub(crate) fn front_token(bytes: &[u8]) -> Option<(Kind, usize)>
    ensures token { front_lexeme bytes.now ≡ option_map (λ r. lexeme r.0 (take r.1 bytes.now)) result }
    ensures not_empty { IfSome result (λ r. 0 < r.1) }
    ensures inside { IfSome result (λ r. r.1 ≤ length bytes.now) }
{
    let first = *bytes.first()?;
    if first.is_ascii_alphabetic() {
        let length = word_run(bytes);
        (length <= LONGEST_WORD).then_some((Kind::Word, length))
    } else if first.is_ascii_digit() {
        let length = digit_run(bytes);
        read_u64(&bytes[..length])?;
        Some((Kind::Number, length))
    } else {
        let length = sign_length(bytes);
        (length > 0).then_some((Kind::Sign, length))
    }
}

/// How many blanks stand at the front.
fn blank_run(bytes: &[u8]) -> usize
    ensures { result ≡ prefix_len is_blank bytes.now }
{
    bytes
        .iter()
        .take_while(|byte| matches!(**byte, b' ' | b'\t' | b'\r'))
        .count()
}

/// How many bytes at the front may stand in a word.
fn word_run(bytes: &[u8]) -> usize
    ensures { result ≡ prefix_len is_word_byte bytes.now }
{
    bytes
        .iter()
        .take_while(|byte| byte.is_ascii_alphanumeric() || **byte == b'_')
        .count()
}

/// How many digits stand at the front.
fn digit_run(bytes: &[u8]) -> usize
    ensures { result ≡ prefix_len is_ascii_digit bytes.now }
{
    bytes
        .iter()
        .take_while(|byte| byte.is_ascii_digit())
        .count()
}

/// The length of the longest sign at the front, 0 where none stands there.
fn sign_length(bytes: &[u8]) -> usize
    ensures { result ≡ sign_length bytes.now }
{
    match bytes {
        [b'<' | b'>' | b'=' | b'!', b'=', ..] => 2,
        [b'+' | b'-' | b'*' | b'/' | b'%', ..] => 1,
        [b'<' | b'>' | b'=', ..] => 1,
        [b'(' | b')' | b'[' | b']' | b',' | b'.', ..] => 1,
        _ => 0,
    }
}
