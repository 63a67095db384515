//! Folds over the children of each index of a row.
ghost use Rattle.std.specs.Prelude.{◌≡◌, ◌≤◌, ◌+ℤ◌, ◌*ℤ◌, pos, length, map, fold};
ghost use Rattle.std.specs.Int.{int_gap, saturate_signed, w64};
ghost use Rattle.std.specs.List.{flat_map};
ghost use Rattle.kernel_rows.specs.Values.{indexes_on};
ghost use Rattle.reductions.specs.Folding.{all_combined, combined};
ghost use Rattle.uts_geom.specs.Spans.{IsNearNumber, index};
ghost use Rattle.whole_fields.specs.Children.{AreFolded, children_in, children_on_x, children_on_y, children_on_z, inner_children, stretch, width_along};
ghost use Rattle.whole_fields.specs.Views.{number_along, number_in};

use crate::views::{FieldRow, FieldView, fill_with, gap};
use kernel_rows::KernelRow;
use reductions::{Fold, combine, identity};
use uts_geom::{Axis, Centring, point_like};

/// The children of a coordinate that lie within bounds: so many, from the first on.
#[derive(Clone, Copy, Debug, PartialEq, Eq)]
pub(crate) struct Children {
    pub first: i64,
    pub count: usize,
    ghost near: { IsNearNumber first },
    ghost few: { count ≤ 4 },
}

/// How many coordinates of the finer level one stands for.
#[inline]
fn width_along(point: bool, ratio: u64) -> i64
    requires { ratio ≤ 4 }
    ensures { result ≡ pos (width_along point ratio) }
{
    if point { 1 } else { ratio as i64 }
}

/// The first coordinate of the finer level that one stands for, brought into the range of numbers.
#[inline]
fn finer(n: i64, ratio: u64) -> i64
    requires { ratio ≤ 4 }
    ensures { result ≡ saturate_signed w64 (pos ratio *ℤ n) }
{
    (ratio as i64).saturating_mul(n)
}

/// The children of a coordinate from `low` up to, and without, `high`.
#[inline]
fn children_between(n: i64, point: bool, ratio: u64, low: i64, high: i64) -> Children
    requires ratio { ratio ≤ 4 }
    requires low_near { IsNearNumber low }
    requires high_near { IsNearNumber high }
    ensures { stretch result.first result.count ≡ inner_children low high point ratio n }
{
    let begin = finer(n, ratio);
    let end = begin.saturating_add(width_along(point, ratio));
    let first = begin.max(low).min(high);
    Children {
        first,
        count: gap(first, end.min(high), 4),
    }
}

/// A number, combined with those of a row at some children.
#[inline]
fn combine_children(folding: Fold, number: i64, along: &FieldRow, xs: Children) -> i64
    ensures { result ≡ fold (combined folding) number (map (number_along along.now.low along.now.numbers.now along.now.outside) (stretch xs.first xs.count)) }
{
    let mut all = number;
    for j in 0..xs.count {
        all = combine(folding, all, along.at(xs.first + j as i64));
    }
    all
}

/// A fold over the children of indexes: of a field on the next finer level, whose centring and whose ratio to this level are given.
#[derive(Drop)]
pub(crate) struct FineFold<'a> {
    pub fold: Fold,
    pub field: FieldView<'a>,
    pub centring: Centring,
    pub ratio: u64,
    ghost few: { ratio ≤ 4 },
}

impl FineFold<'_> {
    /// The children of a coordinate along x.
    #[inline]
    fn on_x(&self, n: i64) -> Children
        ensures { stretch result.first result.count ≡ children_on_x self.now.ratio self.now.centring self.now.field.space n }
    {
        let space = self.field.space;
        let point = point_like(self.centring, Axis::X);
        children_between(n, point, self.ratio, space.lo.x, space.hi.x)
    }

    fn on_y(&self, n: i64) -> Children
        ensures { stretch result.first result.count ≡ children_on_y self.now.ratio self.now.centring self.now.field.space n }
    {
        let space = self.field.space;
        let point = point_like(self.centring, Axis::Y);
        children_between(n, point, self.ratio, space.lo.y, space.hi.y)
    }

    fn on_z(&self, n: i64) -> Children
        ensures { stretch result.first result.count ≡ children_on_z self.now.ratio self.now.centring self.now.field.space n }
    {
        let space = self.field.space;
        let point = point_like(self.centring, Axis::Z);
        children_between(n, point, self.ratio, space.lo.z, space.hi.z)
    }

    /// Combines each number of `out` with those of a finer row, at the children along x of its index.
    fn add_row(&self, along: &FieldRow, row: KernelRow, out: &mut [i64])
        requires { length out.old ≡ int_gap row.low row.high }
        ensures { AreFolded self.now.fold out.old out.new (λ k. map (number_along along.now.low along.now.numbers.now along.now.outside)
            (children_on_x self.now.ratio self.now.centring self.now.field.space (row.low +ℤ pos k))) }
    {
        let mut x = row.low;
        for number in out.iter_mut() {
            *number = combine_children(self.fold, *number, along, self.on_x(x));
            x += 1;
        }
    }

    /// The same, with those of the finer rows at some y and one z.
    fn add_plane(&self, ys: Children, z: i64, row: KernelRow, out: &mut [i64])
        requires { length out.old ≡ int_gap row.low row.high }
        ensures { AreFolded self.now.fold out.old out.new (λ k. map (number_in self.now.field.space self.now.field.numbers.now self.now.field.blank)
            (flat_map (λ y. map (λ x. index x y z) (children_on_x self.now.ratio self.now.centring self.now.field.space (row.low +ℤ pos k)))
            (stretch ys.first ys.count))) }
    {
        for j in 0..ys.count {
            self.add_row(&self.field.row(ys.first + j as i64, z), row, out);
        }
    }

    /// The same, with those of all finer rows.
    fn add_all(&self, row: KernelRow, out: &mut [i64])
        requires { length out.old ≡ int_gap row.low row.high }
        ensures { AreFolded self.now.fold out.old out.new (λ k. map (number_in self.now.field.space self.now.field.numbers.now self.now.field.blank)
            (children_in self.now.ratio self.now.centring self.now.field.space (index (row.low +ℤ pos k) row.y row.z))) }
    {
        let ys = self.on_y(row.y);
        let zs = self.on_z(row.z);
        for j in 0..zs.count {
            self.add_plane(ys, zs.first + j as i64, row, out);
        }
    }

    /// Fills `out` with the fold over the children of each index of the row.
    pub fn fill(&self, row: KernelRow, out: &mut [i64])
        requires { length out.old ≡ int_gap row.low row.high }
        ensures { out.new ≡ map (λ i. all_combined self.now.fold (map (number_in self.now.field.space self.now.field.numbers.now self.now.field.blank)
            (children_in self.now.ratio self.now.centring self.now.field.space i))) (indexes_on row) }
    {
        fill_with(identity(self.fold), out);
        self.add_all(row, out);
    }
}
