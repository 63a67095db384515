//! How many patches own an index of the windows around the patches of a level.
ghost use Rattle.std.specs.Prelude.{◌≡◌, ◌*◌, ◌<◌, ◌≤◌, length};
ghost use Rattle.problem_types.specs.Form.{IsProblemInForm};
ghost use Rattle.task_check.specs.First.{IsFaultless};
ghost use Rattle.task_check.specs.Reaches.{IsFewReached, reached_level, touch_count};

use crate::plan::columns::Columns;
use crate::plan::reach::Reach;
use crate::plan::windows::{level_at, reach_window};
use patch_regions::patch_count;
use problem_types::{Centring, Problem};

/// The level that is reached.
pub fn reached_level(reach: Reach, level: u64) -> u64
    requires { level ≤ 4 }
    ensures { result ≡ reached_level reach level }
{
    match reach {
        Reach::Same(_) => level,
        Reach::Coarse(_) => level.saturating_sub(1),
        Reach::Fine => level + 1,
    }
}

/// How many patches of the level reached own an index of the window, summed over the windows of the level's patches.
pub(crate) fn touch_count(p: &Problem, level: u64, reach: Reach, c: Centring) -> u64
    requires form { IsProblemInForm p.now }
    requires faultless { IsFaultless p.now }
    requires few { IsFewReached reach }
    requires level { level < length p.now.levels }
    requires reached { reached_level reach level < length p.now.levels }
    ensures count { result ≡ touch_count p.now level reach c }
    ensures few { result ≤ 1024 * 1024 }
{
    let wanted = level_at(p, reached_level(reach, level));
    let owned = Columns::of(wanted, c);
    let mut sum = 0;
    for patch in 0..patch_count(level_at(p, level)) {
        sum += owned.touched(reach_window(p, reach, c, level, patch));
    }
    sum
}
