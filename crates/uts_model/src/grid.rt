//! Levels as spans: index spaces, children, coarse indexes, and the indexes of a span by place.
ghost use Rattle.std.specs.Prelude.{◌≡◌, ◌<◌, ◌≤◌, ◌+ℤ◌, ◌*ℤ◌, ◌<ℤ◌, ◌≤ℤ◌, ◌∷◌, [], ℕ, pos, Some, length, slice_get, IsTrue};
ghost use Rattle.std.specs.Int.{int_gap};
ghost use Rattle.std.specs.Option.{option_copied};
ghost use Rattle.uts_geom.specs.Spans.{is_inside, index, indexes_of, width_of, IsNearNumber, IsNearSpan};
ghost use Rattle.uts_geom.specs.declared.index.Index.{Index};
ghost use Rattle.problem_types.specs.Regions.{is_in_space, moved, offset_of, ratio_of, coarse_index, children_of, spaces_of};
ghost use Rattle.problem_types.specs.NearSpaces.{IsOnAxis, IsOnGrid};
ghost use Rattle.uts_model.specs.Grids.{AreBoundedLevels, IsOnLevel, IsSameOrFar, IsSameOrFarNumber, all_children, children_end};
ghost use Rattle.uts_model.specs.Spaces.{IsRatio, IsSpaceOn};

use patch_regions::index_space;
use problem_types::{Centring, Level, Problem};
use uts_geom::{Axis, Index, Span, contains, meet, point_like, volume};

/// An index by its coordinates.
fn at(x: i64, y: i64, z: i64) -> Index
    ensures { result ≡ index x y z }
{
    Index { x, y, z }
}

/// The level of this number.
fn level_at(problem: &Problem, level: usize) -> Option<&Level>
    ensures { option_copied result ≡ slice_get problem.now.levels level }
{
    problem.levels.as_slice().get(level)
}

/// A span without indexes.
fn empty_span() -> Span
    ensures { result ≡ record { lo = index (pos 0) (pos 0) (pos 0); hi = index (pos 0) (pos 0) (pos 0) } }
{
    Span {
        lo: at(0, 0, 0),
        hi: at(0, 0, 0),
    }
}

/// The index space of a level, without indexes where there is no such level.
pub(crate) fn space(problem: &Problem, level: usize, c: Centring) -> Span
    requires { AreBoundedLevels problem.now }
    ensures space { IsSpaceOn problem.now level c result }
    ensures only { level < length problem.now.levels → spaces_of problem.now level c ≡ result ∷ [] }
    ensures narrow { width_of result ≤ 4097 }
    ensures on_level { (i : Index) → IsTrue (is_inside result i) → IsOnLevel problem.now level i }
{
    match level_at(problem, level) {
        Some(l) => index_space(l, c),
        None => empty_span(),
    }
}

/// Whether an index lies in the index space of a level.
pub(crate) fn is_in_space(problem: &Problem, level: u32, c: Centring, i: Index) -> bool
    requires { AreBoundedLevels problem.now }
    ensures inside { result ≡ is_in_space problem.now level c i }
    ensures on_level { IsTrue result → IsOnLevel problem.now level i }
{
    contains(space(problem, level as usize, c), i)
}

/// The refinement ratio of a level to the next coarser one, 1 where there is no such level.
pub(crate) fn ratio(problem: &Problem, level: usize) -> u64
    requires { AreBoundedLevels problem.now }
    ensures ratio { result ≡ ratio_of problem.now level }
    ensures good { IsRatio result }
    ensures some { 1 ≤ result }
    ensures small { result ≤ 4 }
{
    match level_at(problem, level) {
        Some(l) => l.ratio,
        None => 1,
    }
}

/// The index of the next coarser level in which an index lies, rounded down.
pub(crate) fn coarse_index(problem: &Problem, level: u32, i: Index) -> Index
    requires { AreBoundedLevels problem.now }
    ensures { result ≡ coarse_index (ratio_of problem.now level) i }
{
    let ratio = ratio(problem, level as usize) as i64;
    at(
        i.x.div_euclid(ratio),
        i.y.div_euclid(ratio),
        i.z.div_euclid(ratio),
    )
}

/// The sum, or where it is beyond an i64 some other number that no index on a level has.
fn moved_along(n: i64, by: i64) -> i64
    ensures { IsSameOrFarNumber result (n +ℤ by) }
{
    n.saturating_add(by)
}

/// The index by an offset away. Where a sum is beyond an i64, some other index that lies on no level.
pub(crate) fn moved(i: Index, by: [i64; 3]) -> Index
    ensures { IsSameOrFar result (moved i (offset_of by)) }
{
    at(
        moved_along(i.x, by[0]),
        moved_along(i.y, by[1]),
        moved_along(i.z, by[2]),
    )
}

/// The first child of a coordinate on an axis of the next finer level.
fn first_child(ratio: i64, n: i64) -> i64
    requires some { pos 1 ≤ℤ ratio }
    requires small { ratio ≤ℤ pos 4 }
    requires on_axis { IsOnAxis n }
    ensures { result ≡ ratio *ℤ n }
{
    ratio * n
}

/// Where the children of a coordinate end.
fn children_end(point: bool, ratio: i64, n: i64) -> i64
    requires some { pos 1 ≤ℤ ratio }
    requires small { ratio ≤ℤ pos 4 }
    requires on_axis { IsOnAxis n }
    ensures { result ≡ children_end point ratio n }
{
    let first = first_child(ratio, n);
    if point { first + 1 } else { first + ratio }
}

/// The children of an index at a ratio, whether there are such indexes or not.
fn all_children(ratio: i64, c: Centring, i: Index) -> Span
    requires some { pos 1 ≤ℤ ratio }
    requires small { ratio ≤ℤ pos 4 }
    requires on_grid { IsOnGrid i }
    ensures { result ≡ all_children ratio c i }
{
    Span {
        lo: at(
            first_child(ratio, i.x),
            first_child(ratio, i.y),
            first_child(ratio, i.z),
        ),
        hi: at(
            children_end(point_like(c, Axis::X), ratio, i.x),
            children_end(point_like(c, Axis::Y), ratio, i.y),
            children_end(point_like(c, Axis::Z), ratio, i.z),
        ),
    }
}

/// The children of an index on the next finer level.
pub(crate) fn children(problem: &Problem, level: u32, c: Centring, i: Index) -> Span
    requires levels { AreBoundedLevels problem.now }
    requires on_level { IsOnLevel problem.now level i }
    ensures children { indexes_of result ≡ children_of problem.now level c i }
    ensures near { IsNearSpan result }
{
    let finer = level as usize + 1;
    meet(
        all_children(ratio(problem, finer) as i64, c, i),
        space(problem, finer, c),
    )
}

/// How many children of an index there are on the next finer level.
pub(crate) fn child_count(problem: &Problem, level: u32, c: Centring, i: Index) -> i64
    requires levels { AreBoundedLevels problem.now }
    requires on_level { IsOnLevel problem.now level i }
    ensures { result ≡ pos (length (children_of problem.now level c i)) }
{
    volume(children(problem, level, c, i)) as i64
}

/// How many numbers there are from `low` up to, and without, `high`.
fn width(low: i64, high: i64) -> u64
    requires low_near { IsNearNumber low }
    requires high_near { IsNearNumber high }
    requires some { low <ℤ high }
    ensures width { result ≡ int_gap low high }
    ensures some { 1 ≤ result }
    ensures small { result ≤ 131072 }
{
    (high - low) as u64
}

/// The number so many above another.
fn number_above(low: i64, by: u64) -> i64
    requires near { IsNearNumber low }
    requires small { by ≤ 131072 }
    ensures { result ≡ low +ℤ pos by }
{
    low + by as i64
}

/// The index of a span at a place: x goes fastest, then y, then z.
pub(crate) fn index_at(s: Span, place: u64) -> Index
    requires near { IsNearSpan s }
    requires place { place < length (indexes_of s) }
    ensures at { slice_get (indexes_of s) place ≡ Some result }
    ensures inside { IsTrue (is_inside s result) }
{
    let across = width(s.lo.x, s.hi.x);
    let row = place / across;
    let along = width(s.lo.y, s.hi.y);
    at(
        number_above(s.lo.x, place % across),
        number_above(s.lo.y, row % along),
        number_above(s.lo.z, row / along),
    )
}
