//! Rows of a coarser level, as they are seen from the finer one.
ghost use Rattle.std.specs.Prelude.{◌≡◌, ◌+ℤ◌, pos, length, map};
ghost use Rattle.std.specs.Int.{int_gap, int_div_euclid};
ghost use Rattle.uts_geom.specs.Spans.{counted};
ghost use Rattle.uts_model.specs.Spaces.{IsRatio};
ghost use Rattle.whole_fields.specs.Views.{number_along};

use crate::views::FieldRow;
use kernel_rows::KernelRow;

/// The coordinate of the coarser level in which one lies, rounded down.
#[inline]
pub(crate) fn coarse(n: i64, ratio: u64) -> i64
    requires { IsRatio ratio }
    ensures { result ≡ int_div_euclid n (pos ratio) }
{
    match ratio {
        1 => n,
        2 => n.div_euclid(2),
        _ => n.div_euclid(4),
    }
}

/// Fills `out` with the numbers of a coarser row at the x of each index of the row, which is divided and then moved.
pub(crate) fn fill_coarse(along: &FieldRow, row: KernelRow, ratio: u64, by: i64, out: &mut [i64])
    requires ratio { IsRatio ratio }
    requires long { length out.old ≡ int_gap row.low row.high }
    ensures { out.new ≡ map (λ k. number_along along.now.low along.now.numbers.now along.now.outside
        (int_div_euclid (row.low +ℤ pos k) (pos ratio) +ℤ by)) (counted 0 (length out.old)) }
{
    let mut x = row.low;
    for place in out.iter_mut() {
        *place = along.at(coarse(x, ratio).saturating_add(by));
        x += 1;
    }
}
