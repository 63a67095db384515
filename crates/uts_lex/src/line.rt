//! The tokens of one line.
ghost use Rattle.std.specs.Prelude.{◌≡◌, ◌==◌, ◌<◌, ◌≤◌, ◌^◌, length, None, IfOk, OnOk, OnErr, IfErr, Err, take, vec_len, slice_range};
ghost use Rattle.std.specs.List.{position_or_len};
ghost use Rattle.uts_lex.specs.Lexemes.{HasBadByte};
ghost use Rattle.uts_lex.specs.Lines.{line_feed, line_end, after_line, line_at};
ghost use Rattle.uts_lex.specs.Tokens.{AppendsLine, AppendsTokens, IsFirstToken};

use crate::front::{front_token, gap_length};
use crate::token::{LexFault, Token};

/// Appends the tokens of the line that begins at `start`, which has the number `line`, and answers
/// the first place after the line. After an error `out` is unchanged.
pub fn lex_line(
    text: &[u8],
    start: usize,
    line: u32,
    out: &mut Vec<Token>,
) -> Result<usize, LexFault>
    requires start_in { start ≤ length text.now }
    requires places_fit { length text.now < 2 ^ 32 }
    ensures place { IfOk result (λ next. next ≡ after_line text.now start) }
    ensures ok { OnOk result (AppendsLine text.now start line out.old.items out.new.items) }

    // Such a line has no tokens, so it is always refused.
    ensures bad_byte { result ≡ Err LexFault.BadByte → HasBadByte (line_at text.now start) }
    ensures err { OnErr result (out.new.items ≡ out.old.items) }
{
    let before = out.len();
    let end = line_end(text, start);
    if let Err(fault) = push_tokens(text, start, end, line, out) {
        out.truncate(before);
        return Err(fault);
    }
    Ok((end + 1).min(text.len()))
}

/// Appends the tokens of the bytes from `start` to `end`. After an error some of them stand in `out`.
#[tactic(auto, using(crate::proofs::Appending::one_token_more))]
fn push_tokens(
    text: &[u8],
    start: usize,
    end: usize,
    line: u32,
    out: &mut Vec<Token>,
) -> Result<(), LexFault>
    requires start_in { start ≤ end }
    requires end_in { end ≤ length text.now }
    requires places_fit { length text.now < 2 ^ 32 }
    ensures ok { OnOk result (AppendsTokens text.now start end line out.old.items out.new.items) }
    ensures bad_byte { result ≡ Err LexFault.BadByte → HasBadByte (slice_range text.now start end) }
    ensures kept { take (vec_len out.old) out.new.items ≡ out.old.items }
{
    let mut place = start;
    while let Some(token) = next_token(text, place, end, line)? {
        out.push(token)?;
        place = token.end as usize;
    }
    Ok(())
}

/// The first token at `place` or behind it, on a line that ends at `end`.
fn next_token(text: &[u8], place: usize, end: usize, line: u32) -> Result<Option<Token>, LexFault>
    requires place_in { place ≤ end }
    requires end_in { end ≤ length text.now }
    requires places_fit { length text.now < 2 ^ 32 }
    ensures first { IfOk result (λ found. IsFirstToken text.now place end line found) }
    ensures bad_byte { OnErr result (HasBadByte (slice_range text.now place end)) }
    ensures fault { IfErr result (λ fault. fault ≡ LexFault.BadByte) }
{
    let rest = &text[place..end];
    let gap = gap_length(rest);
    let rest = &rest[gap..];
    if rest.is_empty() {
        return Ok(None);
    }
    match front_token(rest) {
        Some((kind, length)) => Ok(Some(Token {
            kind,
            start: (place + gap) as u32,
            end: (place + gap + length) as u32,
            line,
        })),
        None => Err(LexFault::BadByte),
    }
}

/// The end of the line that begins at `start`.
fn line_end(text: &[u8], start: usize) -> usize
    requires { start ≤ length text.now }
    ensures end { result ≡ line_end text.now start }
    ensures inside { result ≤ length text.now }
    ensures behind { start ≤ result }
{
    start + line_length(&text[start..])
}

/// How many bytes stand before the first line feed.
#[tactic(auto, using(crate::proofs::Runs::runs))]
fn line_length(bytes: &[u8]) -> usize
    ensures length { result ≡ position_or_len (λ byte. byte == line_feed) bytes.now }
    ensures inside { result ≤ length bytes.now }
{
    bytes.iter().take_while(|byte| **byte != b'\n').count()
}
