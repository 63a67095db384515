ghost use Rattle.std.specs.Prelude.{◌≡◌, ◌≤◌, length, slice_range};

use std::alloc::{AllocError, AllocFailed};

/// Memory ran out.
#[derive(Clone, Copy, Debug, PartialEq, Eq)]
pub struct NoMemory;

impl From<AllocError> for NoMemory {
    fn from(_: AllocError) -> Self {
        NoMemory
    }
}

impl<T: Drop> From<AllocFailed<T>> for NoMemory {
    fn from(_: AllocFailed<T>) -> Self {
        NoMemory
    }
}

/// What a token is.
#[derive(Clone, Copy, Debug, PartialEq, Eq)]
pub enum Kind {
    Word,
    Number,
    Sign,
}

/// A token of a text: the bytes from `start` up to `end`, on the line with the number `line`.
#[derive(Clone, Copy, Debug, PartialEq, Eq)]
pub struct Token {
    pub kind: Kind,
    pub start: u32,
    pub end: u32,
    pub line: u32,
}

impl Token {
    /// The bytes of the text that the token stands for.
    pub fn bytes_in<'a>(&self, text: &'a [u8]) -> &'a [u8]
        requires ordered { self.now.start ≤ self.now.end }
        requires inside { self.now.end ≤ length text.now }
        ensures { result.now ≡ slice_range text.now self.now.start self.now.end }
    {
        &text[self.start as usize..self.end as usize]
    }
}

/// Why a line has no tokens.
#[derive(Clone, Copy, Debug, PartialEq, Eq)]
pub enum LexFault {
    /// Some byte of the line begins no token.
    BadByte,
    /// Memory ran out.
    NoMemory,
}

impl<T: Drop> From<AllocFailed<T>> for LexFault {
    ghost use Rattle.std.specs.Prelude.{◌≡◌};
    ghost use Rattle.uts_lex.specs.declared.token.LexFault.TheVariants.{NoMemory};

    ghost from_gives = { λ _ fault. fault ≡ NoMemory };

    fn from(_: AllocFailed<T>) -> Self {
        LexFault::NoMemory
    }
}
