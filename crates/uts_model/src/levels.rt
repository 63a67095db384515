//! Index spaces and refinement ratios of the levels of a checked problem.
ghost use Rattle.std.specs.Prelude.{◌≡◌, ◌<◌, ◌≤◌, ◌∷◌, [], length};
ghost use Rattle.uts_geom.specs.Spans.{width_of};
ghost use Rattle.problem_types.specs.Regions.{ratio_of, spaces_of};
ghost use Rattle.uts_model.specs.Spaces.{IsRatio, IsSpaceOn};

use crate::grid::{ratio, space};
use task_check::{Checked, bounds};
use uts_geom::{Centring, Span};

/// The index space of a level at a centring, a span without indexes where there is no such level.
pub fn space_on(c: &Checked, level: usize, centring: Centring) -> Span
    ensures space { IsSpaceOn c.now level centring result }
    ensures only { level < length c.now.levels → spaces_of c.now level centring ≡ result ∷ [] }
    ensures narrow { width_of result ≤ 4097 }
{
    bounds(c);
    space(c.problem(), level, centring)
}

/// The refinement ratio of a level to the next coarser one, 1 where there is no such level.
pub fn ratio_on(c: &Checked, level: usize) -> u64
    ensures ratio { result ≡ ratio_of c.now level }
    ensures good { IsRatio result }
{
    bounds(c);
    ratio(c.problem(), level)
}
