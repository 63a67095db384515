//! A field, and its numbers one by one and along x.
ghost use Rattle.std.specs.Prelude.{◌≡◌, ◌≤◌, ◌^◌, ◌<◌, ◌+◌, ◌++◌, replicate, set, take, drop, IsTrue, IfOk, length, map, pos, slice_index_or, if◌then◌else◌};
ghost use Rattle.std.specs.Int.{int_gap};
ghost use Rattle.uts_geom.specs.Spans.{is_inside, indexes_of, IsNearSpan};
ghost use Rattle.field_box.specs.Fields.{along, is_along, number_at, HoldsAlong, IsField};
ghost use Rattle.uts_geom.specs.SameIndexes.{is_same_index};

use std::alloc::{AllocError, Global};
use std::marker::Model;
use uts_geom::{Index, Span, indexes_stand_once, offset_in, spans_hold_their_indexes, volume};

/// Memory ran out.
#[derive(Clone, Copy, Debug, PartialEq, Eq)]
pub struct NoMemory;

impl From<AllocError> for NoMemory {
    fn from(_: AllocError) -> Self {
        NoMemory
    }
}

/// A number for each index of a span.
#[derive(Debug, Drop)]
pub struct Field {
    span: Span,
    numbers: Vec<i64>,
}

impl Model for Field {
    ghost use Rattle.std.specs.Prelude.{◌≡◌, length};
    ghost use Rattle.uts_geom.specs.Spans.{indexes_of, IsNearSpan};
    ghost use Rattle.field_box.specs.Fields.{NumberedSpan};

    ghost Value = { NumberedSpan };

    ghost view = { λ f. record { span = f.span; numbers = f.numbers.items } };

    ghost invariant = { λ f. IsNearSpan f.span × (length f.numbers.items ≡ length (indexes_of f.span)) };
}

/// So many numbers that are all `n`.
fn alike(alloc: Global, n: i64, count: usize) -> Result<Vec<i64>, NoMemory>
    ensures { IfOk result (λ numbers. numbers.items ≡ replicate count n) }
{
    Ok(vec![in alloc; n; count]?)
}

/// The number at a place.
fn number(numbers: &[i64], place: usize) -> i64
    requires { place < length numbers.now }
    ensures { result ≡ slice_index_or numbers.now place (pos 0) }
{
    numbers[place]
}

/// Puts a number at a place.
fn put(numbers: &mut [i64], place: usize, n: i64)
    requires { place < length numbers.old }
    ensures { numbers.new ≡ set numbers.old place n }
{
    numbers[place] = n;
}

/// So many numbers from a place on.
fn part(numbers: &[i64], begin: usize, count: usize) -> &[i64]
    requires { begin + count ≤ length numbers.now }
    ensures { result.now ≡ take count (drop begin numbers.now) }
{
    &numbers[begin..begin + count]
}

/// Copies numbers over those from a place on.
fn copy_over(numbers: &[i64], begin: usize, out: &mut [i64])
    requires { begin + length numbers.now ≤ length out.old }
    ensures { out.new ≡ take begin out.old ++ (numbers.now ++ drop (begin + length numbers.now) out.old) }
{
    out[begin..begin + numbers.len()].copy_from_slice(numbers);
}

impl Field {
    /// The field on the span whose numbers are all `n`.
    pub fn filled(alloc: Global, span: Span, n: i64) -> Result<Field, NoMemory>
        requires near { IsNearSpan span }
        requires few { length (indexes_of span) ≤ 2 ^ 24 }
        ensures { IfOk result (λ f. IsField span (λ i. n) f) }
    {
        indexes_stand_once();
        spans_hold_their_indexes();
        let numbers = alike(alloc, n, volume(span) as usize)?;
        Ok(Field { span, numbers })
    }

    /// The span whose indexes have numbers.
    pub fn span(&self) -> Span
        ensures span { result ≡ self.now.span }
        ensures near { IsNearSpan result }
    {
        self.span
    }

    /// All numbers, in the order of the indexes of the span.
    pub fn numbers(&self) -> &[i64]
        ensures kept { result.now ≡ self.now.numbers }
        ensures numbers { result.now ≡ map (number_at self.now) (indexes_of self.now.span) }
    {
        indexes_stand_once();
        self.numbers.as_slice()
    }

    /// The number of an index.
    pub fn get(&self, i: Index) -> i64
        requires { IsTrue (is_inside self.now.span i) }
        ensures { result ≡ number_at self.now i }
    {
        indexes_stand_once();
        number(&self.numbers, offset_in(self.span, i))
    }

    /// Gives an index another number.
    pub fn set(&mut self, i: Index, n: i64)
        requires { IsTrue (is_inside self.old.span i) }
        ensures { IsField self.old.span (λ j. if is_same_index i j then n else number_at self.old j) self.new }
    {
        indexes_stand_once();
        spans_hold_their_indexes();
        let place = offset_in(self.span, i);
        put(&mut self.numbers, place, n);
    }

    /// The numbers of so many indexes from `first` on along x.
    pub fn stretch(&self, first: Index, count: usize) -> &[i64]
        requires { HoldsAlong self.now.span first count }
        ensures { result.now ≡ map (number_at self.now) (along first count) }
    {
        indexes_stand_once();
        if count == 0 {
            return &[];
        }
        let begin = offset_in(self.span, first);
        part(&self.numbers, begin, count)
    }

    /// Gives the indexes from `first` on along x these numbers.
    pub fn set_stretch(&mut self, first: Index, numbers: &[i64])
        requires { HoldsAlong self.old.span first (length numbers.now) }
        ensures { IsField self.old.span (λ i. if is_along first (length numbers.now) i
            then slice_index_or numbers.now (int_gap first.x i.x) (pos 0)
            else number_at self.old i) self.new }
    {
        indexes_stand_once();
        spans_hold_their_indexes();
        if numbers.is_empty() {
            return;
        }
        let begin = offset_in(self.span, first);
        copy_over(numbers, begin, &mut self.numbers);
    }
}
