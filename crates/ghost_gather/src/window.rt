//! A window, and its numbers one by one and along x.
ghost use Rattle.std.specs.Prelude.{◌≡◌, ◌≤◌, ◌^◌, IsTrue, IfOk, length, map, if◌then◌else◌};
ghost use Rattle.uts_geom.specs.Spans.{is_inside, indexes_of, meet_of, IsNearSpan};
ghost use Rattle.field_box.specs.Fields.{along, number_at, HoldsAlong};
ghost use Rattle.ghost_gather.specs.Windows.{number_seen, IsWindow};

use crate::filling::{copy_over, fill_with, gap, moved_along};
use field_box::{Field, NoMemory};
use std::alloc::Global;
use std::marker::Model;
use uts_geom::{Index, Span, contains, meet};

/// What a task sees of a variable around its patch: the variable's number at each index of a span, and its outside number at those that
/// its index space does not hold.
#[derive(Debug, Drop)]
pub struct Window {
    span: Span,
    space: Span,
    outside: i64,
    stored: Field,
}

impl Model for Window {
    ghost use Rattle.ghost_gather.specs.Windows.{WindowData};
    ghost use Rattle.ghost_gather.specs.Storing.{IsStored};

    ghost Value = { WindowData };

    ghost view = { λ w. record { span = w.span; space = w.space; outside = w.outside; stored = w.stored } };

    ghost invariant = { λ w. IsStored w.span w.space w.stored.span };
}

impl Window {
    /// The window on a span of an index space, in which all is outside so far. It has room for the indexes that both hold.
    pub fn make(alloc: Global, span: Span, space: Span, outside: i64) -> Result<Window, NoMemory>
        requires span_near { IsNearSpan span }
        requires space_near { IsNearSpan space }
        requires few { length (indexes_of (meet_of span space)) ≤ 2 ^ 21 }
        ensures { IfOk result (IsWindow span space outside (λ i. outside)) }
    {
        let common = meet(span, space);
        let stored = Field::filled(alloc, common, outside)?;
        Ok(Window {
            span,
            space,
            outside,
            stored,
        })
    }

    /// The span of the window, indexes outside the index space among them.
    pub fn span(&self) -> Span
        ensures span { result ≡ self.now.span }
        ensures near { IsNearSpan result }
    {
        self.span
    }

    /// Whether the index space holds the index.
    pub fn holds(&self, i: Index) -> bool
        ensures { result ≡ is_inside self.now.space i }
    {
        contains(self.space, i)
    }

    /// The number of an index.
    pub fn at(&self, i: Index) -> i64
        requires { IsTrue (is_inside self.now.span i) }
        ensures { result ≡ number_seen self.now i }
    {
        if contains(self.space, i) {
            self.stored.get(i)
        } else {
            self.outside
        }
    }

    /// Copies the numbers of a field on the indexes that are stored and that it has. The others stay.
    pub fn put_part(&mut self, from: &Field)
        ensures { IsWindow self.old.span self.old.space self.old.outside
            (λ i. if is_inside from.now.span i then number_at from.now i else number_seen self.old i) self.new }
    {
        self.stored.copy_part(from);
    }

    /// Fills `out` with the numbers of the indexes from one on along x.
    pub fn fill(&self, from: Index, out: &mut [i64])
        requires { HoldsAlong self.now.span from (length out.old) }
        ensures { out.new ≡ map (number_seen self.now) (along from (length out.old)) }
    {
        fill_with(self.outside, out);
        let before = gap(from.x, self.space.lo.x, out.len());
        let stop = gap(from.x, self.space.hi.x, out.len());
        if before >= stop {
            return;
        }
        let first = moved_along(from, before);
        if !contains(self.space, first) {
            return;
        }
        copy_over(self.stored.stretch(first, stop - before), before, out);
    }
}
