//! The patches that the windows around the patches of a level touch, searched once for each kind of window.
ghost use Rattle.std.specs.Prelude.{◌≡◌, ◌<◌, ◌↔◌, [], Some, IfOk, IfSome, IsTrue, OnOk, length, slice_get};
ghost use Rattle.problem_types.specs.Form.{IsProblemInForm};
ghost use Rattle.task_check.specs.Bounds.{IsBounded};
ghost use Rattle.task_check.specs.First.{IsAccepted};
ghost use Rattle.task_check.specs.Reaches.{IsFewReached, reached_level};
ghost use Rattle.graph_compiler.specs.Searched.{AreMore, AreSearched, IsFor, IsOf, IsSearched, found_by};

use crate::details::patch_count;
use patch_regions::touching;
use problem_types::{Centring, NoMemory, Problem};
use sqlite_items::Items;
use std::alloc::Global;
use task_check::{Reach, level_at, reach_window, reached_level};

/// The windows of a level, by what they reach and the centring of what is seen, and for each of its patches those of the level reached
/// that own an index of its window.
#[derive(Debug, Drop)]
pub(crate) struct Touched {
    level: u64,
    reach: Reach,
    centring: Centring,
    patches: Items<Items<u32>>,
}

/// Searches the patches of the level reached for those that own an index of the windows around the patches of a level.
fn search(
    alloc: Global,
    p: &Problem,
    level: u64,
    reach: Reach,
    centring: Centring,
) -> Result<Touched, NoMemory>
    requires form { IsProblemInForm p.now }
    requires accepted { IsAccepted p.now }
    requires limits { IsBounded p.now }
    requires few { IsFewReached reach }
    requires level { level < length p.now.levels }
    requires reached { reached_level reach level < length p.now.levels }
    ensures searched { IfOk result (λ search. IsSearched p.now search) }
    ensures of { IfOk result (λ search. IsOf level reach centring search) }
{
    let mut patches = Items::new(alloc);
    let wanted = level_at(p, reached_level(reach, level));
    for patch in 0..patch_count(p, level as u32) {
        let window = reach_window(p, reach, centring, level, patch);
        let touched = touching(alloc, wanted, centring, window)?;
        patches.push(Items::from_vec(touched))?;
    }
    Ok(Touched {
        level,
        reach,
        centring,
        patches,
    })
}

/// Whether the search is of these windows.
fn is_of(search: &Touched, level: u64, reach: Reach, centring: Centring) -> bool
    ensures { IsTrue result ↔ IsOf level reach centring search.now }
{
    search.level == level && search.reach == reach && search.centring == centring
}

/// The place of the search for these windows, if it was made.
fn find(made: &[Touched], level: u64, reach: Reach, centring: Centring) -> Option<usize>
    ensures { IfSome result (λ place. IsFor level reach centring made.now place) }
{
    for (place, search) in made.iter().enumerate() {
        if is_of(search, level, reach, centring) {
            return Some(place);
        }
    }
    None
}

/// The searches that were made.
#[derive(Debug, Drop)]
pub(crate) struct Searches {
    pub(crate) made: Items<Touched>,
}

impl Searches {
    pub(crate) fn new(alloc: Global) -> Searches
        ensures { result.made ≡ [] }
    {
        Searches {
            made: Items::new(alloc),
        }
    }

    /// The place of the search for these windows, which is made if it was not.
    pub(crate) fn place_of(
        &mut self,
        alloc: Global,
        p: &Problem,
        level: u64,
        reach: Reach,
        centring: Centring,
    ) -> Result<usize, NoMemory>
        requires form { IsProblemInForm p.now }
        requires accepted { IsAccepted p.now }
        requires limits { IsBounded p.now }
        requires few { IsFewReached reach }
        requires level { level < length p.now.levels }
        requires reached { reached_level reach level < length p.now.levels }
        requires searched { AreSearched p.now self.old.made }
        ensures searched { OnOk result (AreSearched p.now self.new.made) }
        ensures more { OnOk result (AreMore self.old.made self.new.made) }
        ensures found { IfOk result (λ place. IsFor level reach centring self.new.made place) }
    {
        if let Some(place) = find(self.made.as_slice(), level, reach, centring) {
            return Ok(place);
        }
        let place = self.made.len();
        self.made.push(search(alloc, p, level, reach, centring)?)?;
        Ok(place)
    }

    /// The patches that the window around a patch touches, by the place of the search.
    pub(crate) fn touched(&self, place: usize, patch: u32) -> &[u32]
        ensures { result.now ≡ found_by self.now.made place patch }
    {
        match self.made.as_slice().get(place) {
            Some(search) => match search.patches.as_slice().get(patch as usize) {
                Some(found) => found.as_slice(),
                None => &[],
            },
            None => &[],
        }
    }
}
