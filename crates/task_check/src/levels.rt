//! The faults of `level` lines, with their boxes and patches.
ghost use Rattle.std.specs.Prelude.{◌≡◌, ◌-◌, ◌<◌, ◌++◌, ◌↔◌, IsTrue, IfSome, Any, Some, length, slice_get};
ghost use Rattle.problem_types.specs.Form.{IsProblemInForm};
ghost use Rattle.problem_types.specs.Levels.{HasNearBounds, KeepsGridLimits};
ghost use Rattle.task_check.specs.First.{IsFirst};
ghost use Rattle.task_check.specs.Lines.{LevelFault, SeenLevelFault, cell_count};
ghost use Rattle.task_check.specs.Parts.{OnLine, OfLevels};

use crate::fault::{Fault, FaultKind, Which};
use crate::line::{Line, first_fault};
use crate::slices::item;
use grid_levels::{check_level, has_near_bounds, is_within_limits, keeps_limits};
use patch_regions::index_space;
use problem_types::{BoxLine, Level, Problem};
use uts_geom::{Centring, volume};

/// Whether a bound of the box or of the patch is above 4,096.
fn is_far(b: BoxLine) -> bool
    ensures { IsTrue result ↔ (HasNearBounds b → ⊥) }
{
    !has_near_bounds(b)
}

fn are_far(boxes: &[BoxLine]) -> bool
    ensures { IsTrue result ↔ Any (λ b. HasNearBounds b → ⊥) boxes.now }
{
    boxes.iter().any(|b| is_far(*b))
}

/// Whether a bound of the level's boxes or patches is above 4,096.
fn has_far_bounds(l: &Level) -> bool
    ensures { IsTrue result ↔ Any (λ b. HasNearBounds b → ⊥) (l.now.boxes ++ l.now.patches) }
{
    are_far(l.boxes.as_slice()) || are_far(l.patches.as_slice())
}

/// How many cells the level's box has.
fn cell_count(l: &Level) -> u64
    requires { KeepsGridLimits l.now }
    ensures { result ≡ cell_count l.now }
{
    volume(index_space(l, Centring::Cell))
}

/// A `level` line, by the number of its level.
#[derive(Clone, Copy)]
struct LevelLine<'a> {
    problem: &'a Problem,
    level: usize,
    item: &'a Level,
    ghost at: { slice_get problem.now.levels level ≡ Some item.now },
}

impl Line for LevelLine<'_> {
    ghost stands = { λ s. SeenLevelFault s.problem.now s.level s.item.now };

    fn has(&self, kind: FaultKind) -> bool {
        let (problem, item) = (self.problem, self.item);
        match kind {
            FaultKind::TooLarge(Which::Levels) => self.level == 4,
            FaultKind::TooLarge(Which::Bounds) => has_far_bounds(item),
            FaultKind::TooLarge(Which::Patches) => item.patches.len() > 1024,
            FaultKind::TooLarge(Which::Cells) => keeps_limits(item) && cell_count(item) > 262_144,
            FaultKind::BadGrid => {
                is_within_limits(problem, self.level) && check_level(problem, self.level).is_err()
            }
            _ => false,
        }
    }
}

/// The first fault of the `level` line of a level, where the next coarser one keeps the limits.
fn level_fault(problem: &Problem, level: usize, item: &Level) -> Option<Fault>
    requires form { IsProblemInForm problem.now }
    requires at { slice_get problem.now.levels level ≡ Some item.now }
    requires coarser { 0 < level → IfSome (slice_get problem.now.levels (level - 1)) KeepsGridLimits }
    ensures { IsFirst (OnLine item.now.line (LevelFault problem.now level item.now)) result }
{
    first_fault(
        item.line,
        &LevelLine {
            problem,
            level,
            item,
        },
    )
}

/// The first fault of a `level` line.
pub(crate) fn levels_fault(problem: &Problem) -> Option<Fault>
    requires { IsProblemInForm problem.now }
    ensures { IsFirst (OfLevels problem.now) result }
{
    for level in 0..problem.levels.len() {
        if let Some(fault) = level_fault(problem, level, item(problem.levels.as_slice(), level)) {
            return Some(fault);
        }
    }
    None
}
