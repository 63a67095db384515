//! Counts of touches, kept so that each is made once.
ghost use Rattle.std.specs.Prelude.{◌≡◌, ◌↔◌, ◌*◌, ◌<◌, ◌≤◌, All, IfSome, IsTrue, length};
ghost use Rattle.problem_types.specs.Form.{IsProblemInForm};
ghost use Rattle.task_check.specs.First.{IsFaultless};
ghost use Rattle.problem_types.specs.declared.problem.Problem.{Problem};
ghost use Rattle.task_check.specs.Kept.{AreRight, IsRight};
ghost use Rattle.task_check.specs.Reaches.{IsFewReached, reached_level, touch_count};

use crate::plan::reach::Reach;
use crate::plan::touches::touch_count;
use problem_types::{Centring, Problem};

/// The windows of a level, by what they reach and the centring of what is seen, and how many patches own an index of them, summed.
#[derive(Clone, Copy, Debug, PartialEq, Eq)]
pub(crate) struct Kept {
    pub(crate) level: u64,
    pub(crate) reach: Reach,
    pub(crate) centring: Centring,
    pub(crate) count: u64,
}

/// Whether the count is of these windows.
fn is_of(kept: Kept, level: u64, reach: Reach, centring: Centring) -> bool
    ensures { IsTrue result ↔ ((kept.level ≡ level) × ((kept.reach ≡ reach) × (kept.centring ≡ centring))) }
{
    kept.level == level && kept.reach == reach && kept.centring == centring
}

/// The count that is kept for these windows.
fn find(kept: &[Option<Kept>], level: u64, reach: Reach, centring: Centring) -> Option<u64>
    ensures { (p : Problem) → AreRight p kept.now → IfSome result (λ n. (n ≡ touch_count p level reach centring) × (n ≤ 1024 * 1024)) }
{
    for entry in kept {
        if let Some(kept) = entry {
            if is_of(*kept, level, reach, centring) {
                return Some(kept.count);
            }
        }
    }
    None
}

/// How many counts are kept.
const MOST: usize = 2048;

/// The counts that are kept, and where the next one goes.
#[derive(Drop)]
pub(crate) struct Touches {
    pub(crate) kept: [Option<Kept>; 2048],
    next: usize,
}

impl Touches {
    /// No counts yet.
    pub(crate) fn new() -> Touches
        ensures { (p : Problem) → AreRight p result.kept }
    {
        Touches {
            kept: [None; 2048],
            next: 0,
        }
    }

    /// Keeps one more count, in place of the oldest where there are many.
    fn keep(&mut self, kept: Kept)
        ensures { (p : Problem) → AreRight p self.old.kept → IsRight p kept → AreRight p self.new.kept }
    {
        let place = if self.next < MOST { self.next } else { 0 };
        self.kept[place] = Some(kept);
        self.next = place + 1;
    }

    /// How many patches of the level reached own an index of the window, summed over the windows of the level's patches.
    pub(crate) fn count(&mut self, p: &Problem, level: u64, reach: Reach, c: Centring) -> u64
        requires form { IsProblemInForm p.now }
        requires faultless { IsFaultless p.now }
        requires few { IsFewReached reach }
        requires level { level < length p.now.levels }
        requires reached { reached_level reach level < length p.now.levels }
        requires kept { AreRight p.now self.old.kept }
        ensures count { result ≡ touch_count p.now level reach c }
        ensures few { result ≤ 1024 * 1024 }
        ensures kept { AreRight p.now self.new.kept }
    {
        if let Some(count) = find(self.kept.as_slice(), level, reach, c) {
            return count;
        }
        let count = touch_count(p, level, reach, c);
        self.keep(Kept {
            level,
            reach,
            centring: c,
            count,
        });
        count
    }
}
