//! Words, numbered in the order of their first appearance.
ghost use Rattle.std.specs.Prelude.{◌≡◌, ◌≢◌, ◌+◌, ◌<◌, ◌≤◌, ◌^◌, ◌↔◌, [], length, slice_get, option_copied, IsTrue, IsSome, IfOk, OnOk, OnErr, AllPairs};

use crate::token::NoMemory;
use indexmap::IndexSet;
use std::alloc::Global;
use std::marker::Model;

/// Distinct words, each of which has its place among them as its number.
#[derive(Drop)]
pub struct Names {
    words: IndexSet<Vec<u8>>,
}

impl Model for Names {
    ghost use Rattle.std.specs.Prelude.{List, ℕ, ◌≢◌, AllPairs};

    ghost Value = { List (List ℕ) };

    ghost use Rattle.uts_lex.specs.Words.{words_of};

    ghost view = { λ names. words_of names.words.keys };

    ghost invariant = { λ names. AllPairs ◌≢◌ (words_of names.words.keys) };
}

impl Names {
    ghost use Rattle.uts_lex.specs.Names.{with_name, number_of};

    /// No names.
    pub fn new(alloc: Global) -> Self
        ensures { result ≡ [] }
    {
        Names {
            words: IndexSet::new(alloc),
        }
    }

    /// How many names there are.
    pub fn len(&self) -> usize
        ensures len { result ≡ length self.now }
        ensures distinct { AllPairs ◌≢◌ self.now }
    {
        self.words.len()
    }

    /// Whether there are no names.
    pub fn is_empty(&self) -> bool
        ensures { IsTrue result ↔ (self.now ≡ []) }
    {
        self.words.is_empty()
    }

    /// The number of the word. A word that has none is put behind the others. After an error nothing
    /// has changed.
    pub fn number(&mut self, word: &[u8]) -> Result<u32, NoMemory>
        requires { length self.old < 2 ^ 31 }
        ensures number { IfOk result (λ number. number ≡ number_of self.old word.now) }
        ensures word { IfOk result (λ number. slice_get self.new number ≡ Some word.now) }
        ensures names { OnOk result (self.new ≡ with_name self.old word.now) }
        ensures err { OnErr result (self.new ≡ self.old) }
        ensures distinct { AllPairs ◌≢◌ self.new }
    {
        if let Some(place) = self.words.get_index_of(word) {
            return Ok(place as u32);
        }
        let word = Vec::from_slice(*self.words.allocator(), word)?;
        let (place, _) = self.words.insert_full(word)?;
        Ok(place as u32)
    }

    /// The name with this number.
    pub fn get(&self, number: u32) -> Option<&[u8]>
        ensures name { option_copied result ≡ slice_get self.now number }
        ensures found { IsSome result ↔ (number < length self.now) }
    {
        self.words
            .get_index(number as usize)
            .map(|word| word.as_slice())
    }
}
