//! What stands of a field on one level, and along one row of it.
ghost use Rattle.std.specs.Prelude.{◌≡◌, ◌≤◌, ◌<◌, ◌+◌, ◌++◌, ◌+ℤ◌, ℤ, pos, min, length, map, take, drop, replicate, Some, IsSome, IfSome, IfNone, OnOk, slice_get, slice_index_or};
ghost use Rattle.std.specs.Int.{int_gap};
ghost use Rattle.uts_geom.specs.Spans.{index, counted, indexes_of, row_indexes, width_of, IsNearNumber, IsNearSpan};
ghost use Rattle.uts_geom.specs.declared.index.Index.{Index};
ghost use Rattle.whole_fields.specs.Views.{number_in, number_along};

use crate::NoMemory;
use uts_geom::{Index, Span, contains, indexes_stand_once, offset_in, spans_hold_their_indexes};

/// A field on one level: the numbers of its index space, x fastest, then y, then z, none of them where the field has not been put; and
/// its number everywhere else.
#[derive(Drop)]
pub(crate) struct FieldView<'a> {
    pub space: Span,
    pub numbers: &'a [i64],
    pub blank: i64,
    ghost near: { IsNearSpan space },
    ghost full: { 0 < length numbers.now → length numbers.now ≡ length (indexes_of space) },
}

/// One row of a field: its numbers from `low` on along x, and its number before and behind them.
#[derive(Drop)]
pub(crate) struct FieldRow<'a> {
    pub low: i64,
    pub numbers: &'a [i64],
    pub outside: i64,
    ghost near: { IsNearNumber low },
    ghost short: { length numbers.now ≤ 131072 },
}

/// A row without numbers of its own.
fn blank_row<'a>(outside: i64) -> FieldRow<'a>
    ensures { (x : ℤ) → number_along result.low result.numbers.now result.outside x ≡ outside }
{
    FieldRow {
        low: 0,
        numbers: &[],
        outside,
    }
}

/// How many numbers there are along x.
pub(crate) fn width(s: Span) -> usize
    requires { IsNearSpan s }
    ensures width { result ≡ width_of s }
    ensures small { result ≤ 131072 }
{
    if s.lo.x < s.hi.x {
        (s.hi.x - s.lo.x) as usize
    } else {
        0
    }
}

/// So many numbers from a place on.
fn part(numbers: &[i64], begin: usize, count: usize) -> &[i64]
    requires { begin + count ≤ length numbers.now }
    ensures { result.now ≡ take count (drop begin numbers.now) }
{
    &numbers[begin..begin + count]
}

/// How many numbers there are from `low` up to, and without, `high`: at most so many.
pub(crate) fn gap(low: i64, high: i64, most: usize) -> usize
    ensures { result ≡ min (int_gap low high) most }
{
    if low < high {
        (low.abs_diff(high) as usize).min(most)
    } else {
        0
    }
}

/// Makes each number this one.
pub(crate) fn fill_with(number: i64, out: &mut [i64])
    ensures { out.new ≡ replicate (length out.old) number }
{
    out.fill(number);
}

/// Copies numbers over those from a place on.
fn copy_over(numbers: &[i64], begin: usize, out: &mut [i64])
    requires { begin + length numbers.now ≤ length out.old }
    ensures { out.new ≡ take begin out.old ++ (numbers.now ++ drop (begin + length numbers.now) out.old) }
{
    out[begin..begin + numbers.len()].copy_from_slice(numbers);
}

impl FieldRow<'_> {
    /// The number at x.
    #[inline]
    pub fn at(&self, x: i64) -> i64
        ensures { result ≡ number_along self.now.low self.now.numbers.now self.now.outside x }
    {
        if x < self.low {
            return self.outside;
        }
        match self.numbers.get(self.low.abs_diff(x) as usize) {
            Some(number) => *number,
            None => self.outside,
        }
    }

    /// Fills `out` with the numbers from an x on.
    pub fn fill(&self, from: i64, out: &mut [i64])
        ensures { out.new ≡ map (λ k. number_along self.now.low self.now.numbers.now self.now.outside (from +ℤ pos k)) (counted 0 (length out.old)) }
    {
        let before = gap(from, self.low, out.len());
        let skipped = gap(self.low, from, self.numbers.len());
        let count = (self.numbers.len() - skipped).min(out.len() - before);
        fill_with(self.outside, out);
        copy_over(part(self.numbers, skipped, count), before, out);
    }

    /// The same, from an x on that is moved.
    pub fn fill_moved(&self, from: i64, by: i64, out: &mut [i64])
        ensures { out.new ≡ map (λ k. number_along self.now.low self.now.numbers.now self.now.outside ((from +ℤ by) +ℤ pos k)) (counted 0 (length out.old)) }
    {
        self.fill(from.saturating_add(by), out);
    }
}

/// A field that is 1 everywhere.
pub(crate) fn ones<'a>(space: Span) -> FieldView<'a>
    requires { IsNearSpan space }
    ensures space { result.space ≡ space }
    ensures ones { (i : Index) → number_in result.space result.numbers.now result.blank i ≡ pos 1 }
{
    spans_hold_their_indexes();
    FieldView {
        space,
        numbers: &[],
        blank: 1,
    }
}

impl<'a> FieldView<'a> {
    /// Where the numbers of the row at y and z begin, `None` where the field has none of its own there.
    fn place(&self, y: i64, z: i64) -> Option<usize>
        ensures none { IfNone result ((x : ℤ) → number_in self.now.space self.now.numbers.now self.now.blank (index x y z) ≡ self.now.blank) }
        ensures some { IfSome result (λ begin. slice_get (indexes_of self.now.space) begin ≡ Some (index self.now.space.lo.x y z)) }
        ensures full { IsSome result → length self.now.numbers.now ≡ length (indexes_of self.now.space) }
    {
        spans_hold_their_indexes();
        let first = Index {
            x: self.space.lo.x,
            y,
            z,
        };
        if self.numbers.is_empty() || !contains(self.space, first) {
            return None;
        }
        Some(offset_in(self.space, first))
    }

    /// The field's row at y and z.
    pub fn row(&self, y: i64, z: i64) -> FieldRow<'a>
        ensures { (x : ℤ) → number_along result.low result.numbers.now result.outside x
            ≡ number_in self.now.space self.now.numbers.now self.now.blank (index x y z) }
    {
        spans_hold_their_indexes();
        indexes_stand_once();
        let Some(begin) = self.place(y, z) else {
            return blank_row(self.blank);
        };
        FieldRow {
            low: self.space.lo.x,
            numbers: part(self.numbers, begin, width(self.space)),
            outside: self.blank,
        }
    }
    /// The field's row at y and z, both moved by an offset.
    pub fn moved_row(&self, y: i64, z: i64, by: [i64; 3]) -> FieldRow<'a>
        ensures { (x : ℤ) → number_along result.low result.numbers.now result.outside x
            ≡ number_in self.now.space self.now.numbers.now self.now.blank (index x (y +ℤ slice_index_or by 1 (pos 0)) (z +ℤ slice_index_or by 2 (pos 0))) }
    {
        spans_hold_their_indexes();
        self.row(y.saturating_add(by[1]), z.saturating_add(by[2]))
    }

    /// Replaces `out` by the numbers of the row at y and z, as long as the field's index space.
    pub fn copy_row(&self, y: i64, z: i64, out: &mut Vec<i64>) -> Result<(), NoMemory>
        ensures { OnOk result (out.new.items ≡ map (number_in self.now.space self.now.numbers.now self.now.blank) (row_indexes self.now.space y z)) }
    {
        out.resize(width(self.space), 0)?;
        self.row(y, z).fill(self.space.lo.x, out.as_mut_slice());
        Ok(())
    }
}
