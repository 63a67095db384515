//! Words that may be names of a problem.
ghost use Rattle.std.specs.Prelude.{◌≡◌, ◌≢◌, ◌↔◌, ◌∷◌, IsTrue, IfOk, AllPairs};
ghost use Rattle.std.specs.List.{list_all};
ghost use Rattle.uts_lex.specs.Lexemes.{is_word_byte};
ghost use Rattle.uts_lex.specs.Spelling.{IsWord};
ghost use Rattle.problem_printable.specs.Printable.{IsName, AreNames};

use kernel_parse::is_reserved;
use problem_types::{Name, NoMemory};
use std::alloc::{AllocError, Global};
use std::collections::BTreeSet;

fn is_word_byte(byte: u8) -> bool
    ensures { result ≡ is_word_byte byte }
{
    byte.is_ascii_alphanumeric() || byte == b'_'
}

fn are_word_bytes(bytes: &[u8]) -> bool
    ensures { result ≡ list_all is_word_byte bytes.now }
{
    bytes.iter().all(|byte| is_word_byte(*byte))
}

fn is_word_of(first: u8, rest: &[u8]) -> bool
    ensures { IsTrue result ↔ IsWord (first ∷ rest.now) }
{
    first.is_ascii_alphabetic() && are_word_bytes(rest) && rest.len() < 32
}

// A letter, and behind it letters, digits and `_`, at most 32 bytes in all.
fn is_word(bytes: &[u8]) -> bool
    ensures { IsTrue result ↔ IsWord bytes.now }
{
    match bytes.split_first() {
        None => false,
        Some((first, rest)) => is_word_of(*first, rest),
    }
}

fn is_name(word: &[u8]) -> bool
    ensures { IsTrue result ↔ IsName word.now }
{
    is_word(word) && !is_reserved(word)
}

// Whether no word stands twice. Of n words each is looked for in a tree of those before it, so at most about
// n log n words are compared. It takes memory for the tree.
fn are_distinct(alloc: Global, names: &[Name]) -> Result<bool, AllocError>
    ensures { IfOk result (λ distinct. IsTrue distinct ↔ AllPairs ◌≢◌ names.now) }
{
    let mut seen = BTreeSet::new(alloc);
    for name in names {
        if !seen.insert(name.bytes())? {
            return Ok(false);
        }
    }
    Ok(true)
}

/// Whether each name is a word that may be one, and no two are the same.
pub(crate) fn are_names(alloc: Global, names: &[Name]) -> Result<bool, NoMemory>
    ensures { IfOk result (λ yes. IsTrue yes ↔ AreNames names.now) }
{
    if !names.iter().all(|name| is_name(name.bytes())) {
        return Ok(false);
    }
    Ok(are_distinct(alloc, names)?)
}
