//! The limits within which levels are looked at.
ghost use Rattle.std.specs.Prelude.{◌≤◌, ◌↔◌, IsTrue, All};
ghost use Rattle.problem_types.specs.Levels.{HasNearBounds, KeepsGridLimits};
ghost use Rattle.grid_levels.specs.Good.{IsWithinLimits};

use problem_types::{BoxLine, Level, Problem};

fn are_near(low: u64, high: u64) -> bool
    ensures { IsTrue result ↔ ((low ≤ 4096) × (high ≤ 4096)) }
{
    low <= 4096 && high <= 4096
}

/// Whether the bounds of the box or the patch are at most 4,096.
pub fn has_near_bounds(b: BoxLine) -> bool
    ensures { IsTrue result ↔ HasNearBounds b }
{
    are_near(b.lo[0], b.hi[0]) && are_near(b.lo[1], b.hi[1]) && are_near(b.lo[2], b.hi[2])
}

fn have_near_bounds(boxes: &[BoxLine]) -> bool
    ensures { IsTrue result ↔ All HasNearBounds boxes.now }
{
    boxes.iter().all(|b| has_near_bounds(*b))
}

/// Whether the level has one box and at most 1,024 patches, with bounds of at most 4,096.
pub fn keeps_limits(level: &Level) -> bool
    ensures { IsTrue result ↔ KeepsGridLimits level.now }
{
    level.boxes.len() == 1
        && level.patches.len() <= 1024
        && have_near_bounds(level.boxes.as_slice())
        && have_near_bounds(level.patches.as_slice())
}

/// Whether `check_level` may be called: the problem has the level, and this and the next coarser one keep the limits.
pub fn is_within_limits(p: &Problem, level: usize) -> bool
    ensures { IsTrue result ↔ IsWithinLimits p.now level }
{
    let levels = p.levels.as_slice();
    level < levels.len()
        && keeps_limits(&levels[level])
        && (level == 0 || keeps_limits(&levels[level - 1]))
}
