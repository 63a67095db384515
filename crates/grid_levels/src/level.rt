//! The rules for a level. `docs/grid.md` states them.
ghost use Rattle.std.specs.Prelude.{◌≡◌, ◌-◌, ◌<◌, ◌⊎◌, ◌↔◌, IsTrue, IfSome, IfErr, OnOk, OnErr, length, slice_get};
ghost use Rattle.problem_types.specs.Levels.{IsTiled, KeepsGridLimits};
ghost use Rattle.grid_levels.specs.Good.{AreMultiples, IsNested, IsGood, IsGoodLevel, HasGoodRatio, IsWithinLimits};

use crate::boxes::divided;
use crate::multiples::are_multiples;
use crate::spans::lies_in;
use crate::tiling::is_tiled;
use problem_types::{Level, Problem, cells, level_box};

/// A level breaks a rule. The line is that of the level's statement.
#[derive(Clone, Copy, Debug, PartialEq, Eq)]
pub struct BadGrid {
    pub line: u32,
}

/// Whether the level's box, divided by the ratio, lies in that of the next coarser level.
fn is_nested(coarser: &Level, level: &Level) -> bool
    requires coarser_limits { KeepsGridLimits coarser.now }
    requires limits { KeepsGridLimits level.now }
    requires ratio { 0 < level.now.ratio }
    requires tiled { IsTiled level.now }
    requires multiples { AreMultiples level.now }
    ensures { IsTrue result ↔ IsNested coarser.now level.now }
{
    lies_in(
        divided(level_box(level), level.ratio),
        cells(level_box(coarser)),
    )
}

fn is_good_coarsest(level: &Level) -> bool
    requires { KeepsGridLimits level.now }
    ensures { IsTrue result ↔ ((level.now.ratio ≡ 1) × IsTiled level.now) }
{
    level.ratio == 1 && is_tiled(level)
}

fn is_good_refined(coarser: &Level, level: &Level) -> bool
    requires coarser_limits { KeepsGridLimits coarser.now }
    requires limits { KeepsGridLimits level.now }
    ensures { IsTrue result ↔ (((level.now.ratio ≡ 2) ⊎ (level.now.ratio ≡ 4))
        × IsTiled level.now × AreMultiples level.now × IsNested coarser.now level.now) }
{
    (level.ratio == 2 || level.ratio == 4)
        && is_tiled(level)
        && are_multiples(level)
        && is_nested(coarser, level)
}

fn is_good(p: &Problem, level: usize) -> bool
    requires { IsWithinLimits p.now level }
    ensures { IsTrue result ↔ IsGoodLevel p.now level }
{
    let levels = p.levels.as_slice();
    if level == 0 {
        is_good_coarsest(&levels[0])
    } else {
        is_good_refined(&levels[level - 1], &levels[level])
    }
}

/// Whether a level keeps the rules of the grid: its ratio, that its patches tile its box, and how its box and its patches
/// lie on the next coarser level. The answer takes no memory.
pub fn check_level(p: &Problem, level: usize) -> Result<(), BadGrid>
    requires { IsWithinLimits p.now level }
    ensures ok { OnOk result (IsGoodLevel p.now level) }
    ensures bad { OnErr result (IsGoodLevel p.now level → ⊥) }
    ensures line { IfErr result (λ e. IfSome (slice_get p.now.levels level) (λ l. e.line ≡ l.line)) }
{
    if is_good(p, level) {
        Ok(())
    } else {
        Err(BadGrid {
            line: p.levels.as_slice()[level].line,
        })
    }
}
