//! Indexes along x, and places in a slice.
ghost use Rattle.std.specs.Prelude.{◌≡◌, ◌<◌, ◌≤◌, ◌^◌, ◌+◌, ◌++◌, ◌+ℤ◌, ◌≤ℤ◌, pos, length, min, take, drop, replicate};
ghost use Rattle.std.specs.Int.{int_gap};
ghost use Rattle.uts_geom.specs.Spans.{index};

use uts_geom::Index;

/// How many numbers there are from `low` up to, and without, `high`: at most so many.
pub(crate) fn gap(low: i64, high: i64, most: usize) -> usize
    ensures { result ≡ min (int_gap low high) most }
{
    if low < high {
        (low.abs_diff(high) as usize).min(most)
    } else {
        0
    }
}

/// The index so many further along x.
pub(crate) fn moved_along(i: Index, by: usize) -> Index
    requires near { (i.x +ℤ pos by) ≤ℤ pos 65536 }
    requires short { by < 2 ^ 62 }
    ensures { result ≡ index (i.x +ℤ pos by) i.y i.z }
{
    Index {
        x: i.x + by as i64,
        y: i.y,
        z: i.z,
    }
}

/// Makes each number this one.
pub(crate) fn fill_with(number: i64, out: &mut [i64])
    ensures { out.new ≡ replicate (length out.old) number }
{
    out.fill(number);
}

/// Copies numbers over those from a place on.
pub(crate) fn copy_over(numbers: &[i64], begin: usize, out: &mut [i64])
    requires { begin + length numbers.now ≤ length out.old }
    ensures { out.new ≡ take begin out.old ++ (numbers.now ++ drop (begin + length numbers.now) out.old) }
{
    out[begin..begin + numbers.len()].copy_from_slice(numbers);
}
