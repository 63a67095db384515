//! What the patches of a level own, each bound in a column by itself, so that many patches are compared with a window at once.
ghost use Rattle.std.specs.Prelude.{◌≡◌, ◌<◌, ◌≤◌, ◌≤ℤ◌, ◌&&◌, ℕ, ℤ, pos, All, IsTrue, int_lt, nat_lt, length, slice_index};
ghost use Rattle.std.specs.Int.{int_max, int_min};
ghost use Rattle.std.specs.List.{count_by};
ghost use Rattle.uts_geom.specs.Spans.{coordinate, counted, do_meet, has_indexes};
ghost use Rattle.uts_geom.specs.declared.centring.Centring.{Centring};
ghost use Rattle.uts_geom.specs.declared.span.Span.{Span};
ghost use Rattle.problem_types.specs.Levels.{IsProper, KeepsGridLimits};
ghost use Rattle.problem_types.specs.declared.problem.Level.{Level};
ghost use Rattle.patch_regions.specs.Regions.{owned_span};
ghost use Rattle.task_check.specs.Columns.{HasBounds, HasOwned, HasSpan, IsCut, IsCutWindow};
ghost use Rattle.task_check.specs.Reaches.{touched_count};

use patch_regions::{owned, patch_count};
use problem_types::{Centring, Level};
use uts_geom::{Axis, Index, Span, do_meet};

/// The bounds on one axis, by the number of the patch. Behind the last patch they say nothing.
#[derive(Drop)]
pub(crate) struct Column {
    low: [u16; 1024],
    high: [u16; 1024],
}

/// The bounds on each axis, and how many patches there are.
#[derive(Drop)]
pub(crate) struct Columns {
    x: Column,
    y: Column,
    z: Column,
    count: usize,
}

/// The bounds of a window on an axis, cut to what patches can have.
#[derive(Clone, Copy, Debug, PartialEq, Eq)]
struct Interval {
    low: u16,
    high: u16,
}

/// The bounds of a window on each axis.
#[derive(Clone, Copy, Debug, PartialEq, Eq)]
struct Window {
    x: Interval,
    y: Interval,
    z: Interval,
}

/// The coordinate of an index on an axis.
fn coordinate(i: Index, axis: Axis) -> i64
    ensures { result ≡ coordinate axis i }
{
    match axis {
        Axis::X => i.x,
        Axis::Y => i.y,
        Axis::Z => i.z,
    }
}

/// A bound of a patch.
fn bound(at: i64) -> u16
    requires from { pos 0 ≤ℤ at }
    requires to { at ≤ℤ pos 4097 }
    ensures { pos result ≡ at }
{
    at as u16
}

/// The bounds on one axis of what the patches of the level own.
fn column_of(l: &Level, c: Centring, axis: Axis) -> Column
    requires limits { KeepsGridLimits l.now }
    requires proper { All IsProper l.now.patches }
    ensures { (patch : ℕ) → patch < length l.now.patches →
        HasBounds result patch (coordinate axis (owned_span c l.now patch).lo) (coordinate axis (owned_span c l.now patch).hi) }
{
    let mut column = Column {
        low: [0; 1024],
        high: [0; 1024],
    };
    for patch in 0..patch_count(l) {
        let span = owned(l, patch, c);
        column.low[patch as usize] = bound(coordinate(span.lo, axis));
        column.high[patch as usize] = bound(coordinate(span.hi, axis));
    }
    column
}

/// A bound of a window, cut to what is told from the bounds of patches.
fn cut(at: i64) -> u16
    ensures above { (n : ℕ) → n < 65535 → nat_lt n result ≡ int_lt (pos n) at }
    ensures below { (n : ℕ) → 0 < n → n ≤ 65535 → nat_lt result n ≡ int_lt at (pos n) }
{
    at.clamp(0, 65_535) as u16
}

fn interval_of(low: i64, high: i64) -> Interval
    ensures { IsCut result low high }
{
    Interval {
        low: cut(low),
        high: cut(high),
    }
}

fn window_of(s: Span) -> Window
    ensures { IsCutWindow result s }
{
    Window {
        x: interval_of(s.lo.x, s.hi.x),
        y: interval_of(s.lo.y, s.hi.y),
        z: interval_of(s.lo.z, s.hi.z),
    }
}

/// Whether an interval meets the bounds at a place of a column.
fn meets_along(column: &Column, place: usize, i: Interval) -> bool
    requires { place < 1024 }
    ensures { (low high from to : ℤ) → HasBounds column.now place low high → IsTrue (int_lt low high) → IsCut i from to → IsTrue (int_lt from to) →
        result ≡ int_lt (int_max low from) (int_min high to) }
{
    (column.low[place] < i.high) & (i.low < column.high[place])
}

impl Columns {
    /// What the patches of the level own.
    pub(crate) fn of(l: &Level, c: Centring) -> Columns
        requires limits { KeepsGridLimits l.now }
        requires proper { All IsProper l.now.patches }
        ensures owned { HasOwned result c l.now }
        ensures few { result.count ≤ 1024 }
    {
        Columns {
            x: column_of(l, c, Axis::X),
            y: column_of(l, c, Axis::Y),
            z: column_of(l, c, Axis::Z),
            count: patch_count(l) as usize,
        }
    }

    /// Whether a patch owns an index of the window.
    fn meets(&self, place: usize, w: Window) -> bool
        requires { place < 1024 }
        ensures { (own s : Span) → HasSpan self.now place own → IsCutWindow w s → IsTrue (has_indexes s) → result ≡ do_meet own s }
    {
        meets_along(&self.x, place, w.x)
            & meets_along(&self.y, place, w.y)
            & meets_along(&self.z, place, w.z)
    }

    /// How many patches own an index of the window.
    fn met(&self, w: Window) -> u16
        requires { self.now.count ≤ 1024 }
        ensures count { (own : ℕ → Span) (s : Span) → ((place : ℕ) → place < self.now.count → HasSpan self.now place (own place)) →
            IsCutWindow w s → IsTrue (has_indexes s) → result ≡ count_by (λ place. do_meet (own place) s) (counted 0 self.now.count) }
        ensures few { result ≤ 1024 }
    {
        let mut n: u16 = 0;
        for place in 0..self.count {
            n += u16::from(self.meets(place, w));
        }
        n
    }

    /// How many patches own an index of the span.
    pub(crate) fn touched(&self, s: Span) -> u64
        requires { self.now.count ≤ 1024 }
        ensures count { (c : Centring) (l : Level) → HasOwned self.now c l → result ≡ touched_count c l s }
        ensures few { result ≤ 1024 }
    {
        if do_meet(s, s) {
            u64::from(self.met(window_of(s)))
        } else {
            0
        }
    }
}
