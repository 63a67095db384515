//! The slots that the detailed tasks of a list read.
ghost use Rattle.std.specs.Prelude.{◌≡◌, ◌+◌, ◌*◌, ◌<◌, ◌≤◌, ◌++◌, ◌∷◌, [], ℕ, All, Contains, IfOk, OnOk, Some, cond, length, map, slice_get, slice_index, true};
ghost use Rattle.std.specs.List.{flat_map};
ghost use Rattle.std.specs.List.Sorted.{IsStrictlyIncreasing};
ghost use Rattle.problem_types.specs.Form.{IsProblemInForm};
ghost use Rattle.problem_types.specs.Lists.{is_reduces, task_list};
ghost use Rattle.task_check.specs.Bounds.{AreBoundedTasks, IsBounded};
ghost use Rattle.task_check.specs.First.{IsAccepted};
ghost use Rattle.task_check.specs.Plan.{Combining, combining, details_of, line_is, on_patches, patches_of, slots_of};
ghost use Rattle.graph_types.specs.Graph.{has};
ghost use Rattle.graph_compiler.specs.Layouts.{AreLaidOut};
ghost use Rattle.graph_compiler.specs.Places.{AreOldSlots};
ghost use Rattle.graph_compiler.specs.Plan.{reads_of_list};
ghost use Rattle.graph_compiler.specs.Reading.{details_on, part_slots, places_read, reducing_lines};
ghost use Rattle.graph_compiler.specs.Searched.{AreSearched};
ghost use Rattle.graph_compiler.specs.Sources.{AreFrom, AreSourcesOf, slots_from};

use crate::details::patch_count;
use crate::layout::Layout;
use crate::old_slots::OldSlots;
use crate::sources::{Source, Sources};
use crate::touched::Searches;
use problem_lookup::is_reduces;
use problem_types::{NoMemory, Problem, Task};
use sqlite_items::Items;
use std::alloc::{AllocError, Global};

/// Puts the slots at equal distances at the end, for the patches that were found.
fn put_new(reads: &mut Vec<u32>, found: &[u32], first: u32, lines: u32) -> Result<(), AllocError>
    requires { All (λ slot. slot < 262144) (map (λ other. first + other * lines) found.now) }
    ensures { OnOk result (reads.new.items ≡ reads.old.items ++ map (λ other. first + other * lines) found.now) }
{
    for other in found {
        reads.push(first + *other * lines)?;
    }
    Ok(())
}

/// The place that is noted, 0 where none is.
fn place_at(places: &[u32], place: usize) -> u32
    ensures { result ≡ slice_index places.now place }
{
    match places.get(place) {
        Some(slot) => *slot,
        None => 0,
    }
}

/// Puts the old slots at the end, for the patches that were found.
fn put_old(
    reads: &mut Vec<u32>,
    found: &[u32],
    places: &[u32],
    first: u32,
) -> Result<(), AllocError>
    ensures { OnOk result (reads.new.items ≡ reads.old.items ++ map (λ other. slice_index places.now (first + other)) found.now) }
{
    for other in found {
        reads.push(place_at(places, first as usize + *other as usize))?;
    }
    Ok(())
}

/// Puts the slots of a source that a detailed task on the patch reads at the end.
fn put_source(
    reads: &mut Vec<u32>,
    places: &[u32],
    source: Source,
    patch: u32,
    searches: &Searches,
) -> Result<(), AllocError>
    requires { All (λ slot. slot < 262144) (slots_from searches.now.made places.now patch source) }
    ensures { OnOk result (reads.new.items ≡ reads.old.items ++ slots_from searches.now.made places.now patch source) }
{
    match source {
        Source::Number(slot) => Ok(reads.push(slot)?),
        Source::New {
            search,
            first,
            lines,
        } => put_new(reads, searches.touched(search, patch), first, lines),
        Source::Old { search, first } => {
            put_old(reads, searches.touched(search, patch), places, first)
        }
    }
}

/// Puts the slots of the sources at the end.
fn put_sources(
    alloc: Global,
    places: &[u32],
    sources: &[Source],
    patch: u32,
    searches: &Searches,
) -> Result<Vec<u32>, AllocError>
    requires { All (λ source. All (λ slot. slot < 262144) (slots_from searches.now.made places.now patch source)) sources.now }
    ensures { IfOk result (λ reads. reads.items ≡ flat_map (slots_from searches.now.made places.now patch) sources.now) }
{
    let mut reads = Vec::new(alloc);
    for source in sources {
        put_source(&mut reads, places, *source, patch, searches)?;
    }
    Ok(reads)
}

/// The slots in ascending order, each once.
fn ascending(mut slots: Vec<u32>) -> Vec<u32>
    ensures ascending { IsStrictlyIncreasing result.items }
    ensures same { (slot : ℕ) → has result.items slot ≡ has slots.items slot }
{
    slots.sort_unstable();
    slots.dedup();
    slots
}

/// Puts the reads of the detailed tasks on the patches of a level and a material at the end.
fn put_patches(
    alloc: Global,
    all: &mut Items<Items<u32>>,
    s: &Sources,
    task: usize,
    t: &Task,
    level: u64,
    material: u64,
    searches: &mut Searches,
) -> Result<(), NoMemory>
    requires from { AreFrom s.now }
    requires task { slice_get s.now.tasks.now task ≡ Some t.now }
    requires level { Contains t.now.levels level }
    requires material { Contains t.now.materials material }
    requires searched { AreSearched s.now.problem.now searches.old.made }
    ensures searched { OnOk result (AreSearched s.now.problem.now searches.new.made) }
    ensures reads { OnOk result (all.new ≡ all.old ++ map (places_read s.now.problem.now s.now.tasks.now) (details_on s.now.problem.now task level material)) }
{
    let sources = s.sources(alloc, task, t, level, material, searches)?;
    for patch in 0..patch_count(s.problem, level as u32) {
        let places = s.old.variables.as_slice();
        let slots = put_sources(alloc, places, sources.as_slice(), patch, searches)?;
        all.push(Items::from_vec(ascending(slots)))?;
    }
    Ok(())
}

/// Puts the reads of the detailed tasks on a level at the end, material by material.
fn put_level(
    alloc: Global,
    all: &mut Items<Items<u32>>,
    s: &Sources,
    task: usize,
    t: &Task,
    level: u64,
    searches: &mut Searches,
) -> Result<(), NoMemory>
    requires from { AreFrom s.now }
    requires task { slice_get s.now.tasks.now task ≡ Some t.now }
    requires level { Contains t.now.levels level }
    requires searched { AreSearched s.now.problem.now searches.old.made }
    ensures searched { OnOk result (AreSearched s.now.problem.now searches.new.made) }
    ensures reads { OnOk result (all.new ≡ all.old ++ map (places_read s.now.problem.now s.now.tasks.now) (flat_map (details_on s.now.problem.now task level) t.now.materials)) }
{
    for material in t.materials.as_slice() {
        put_patches(alloc, all, s, task, t, level, *material, searches)?;
    }
    Ok(())
}

/// Puts the reads of the detailed tasks of a task on patches at the end, level by level.
fn put_levels(
    alloc: Global,
    all: &mut Items<Items<u32>>,
    s: &Sources,
    task: usize,
    t: &Task,
    searches: &mut Searches,
) -> Result<(), NoMemory>
    requires from { AreFrom s.now }
    requires task { slice_get s.now.tasks.now task ≡ Some t.now }
    requires searched { AreSearched s.now.problem.now searches.old.made }
    ensures searched { OnOk result (AreSearched s.now.problem.now searches.new.made) }
    ensures reads { OnOk result (all.new ≡ all.old ++ map (places_read s.now.problem.now s.now.tasks.now) (on_patches s.now.problem.now task t.now)) }
{
    for level in t.levels.as_slice() {
        put_level(alloc, all, s, task, t, *level, searches)?;
    }
    Ok(())
}

/// The slots of the parts of a line.
fn parts(alloc: Global, layout: Layout, line: u32) -> Result<Items<u32>, AllocError>
    requires few { layout.first + (layout.parts * layout.lines + layout.numbers) ≤ 262144 }
    requires line { line < layout.lines }
    ensures { IfOk result (λ slots. slots ≡ part_slots layout line) }
{
    let mut slots = Items::new(alloc);
    for part in 0..layout.parts {
        slots.push(layout.first + (part * layout.lines + line))?;
    }
    Ok(slots)
}

/// Puts the reads of the detailed task that combines the parts of a line at the end, if the line reduces.
fn put_combining(
    alloc: Global,
    all: &mut Items<Items<u32>>,
    layout: Layout,
    line: u32,
    reduces: bool,
) -> Result<(), AllocError>
    requires few { layout.first + (layout.parts * layout.lines + layout.numbers) ≤ 262144 }
    requires line { line < layout.lines }
    ensures { OnOk result (all.new ≡ all.old ++ cond reduces (part_slots layout line ∷ []) []) }
{
    if reduces {
        all.push(parts(alloc, layout, line)?)?;
    }
    Ok(())
}

/// Puts the reads of the detailed tasks that combine parts of the lines of a task at the end.
fn put_lines(
    alloc: Global,
    all: &mut Items<Items<u32>>,
    layout: Layout,
    t: &Task,
) -> Result<(), AllocError>
    requires few { layout.first + (layout.parts * layout.lines + layout.numbers) ≤ 262144 }
    requires lines { layout.lines ≡ length t.now.writes }
    ensures { OnOk result (all.new ≡ all.old ++ map (part_slots layout) (reducing_lines t.now)) }
{
    for line in 0..layout.lines {
        let reduces = is_reduces(t.writes.as_slice()[line as usize].kind);
        put_combining(alloc, all, layout, line, reduces)?;
    }
    Ok(())
}

/// Puts the reads of the detailed tasks of a task at the end.
fn put_task(
    alloc: Global,
    all: &mut Items<Items<u32>>,
    s: &Sources,
    task: usize,
    t: &Task,
    searches: &mut Searches,
) -> Result<(), NoMemory>
    requires from { AreFrom s.now }
    requires task { slice_get s.now.tasks.now task ≡ Some t.now }
    requires searched { AreSearched s.now.problem.now searches.old.made }
    ensures searched { OnOk result (AreSearched s.now.problem.now searches.new.made) }
    ensures reads { OnOk result (all.new ≡ all.old ++ map (places_read s.now.problem.now s.now.tasks.now) (on_patches s.now.problem.now task t.now ++ combining task t.now)) }
{
    put_levels(alloc, all, s, task, t, searches)?;
    put_lines(alloc, all, s.layout_at(task), t)?;
    Ok(())
}

/// For each detailed task of a list the slots that it reads, ascending.
pub(crate) fn all_reads(
    alloc: Global,
    problem: &Problem,
    tasks: &[Task],
    layouts: &[Layout],
    old: &OldSlots,
) -> Result<Items<Items<u32>>, NoMemory>
    requires form { IsProblemInForm problem.now }
    requires accepted { IsAccepted problem.now }
    requires limits { IsBounded problem.now }
    requires tasks { AreBoundedTasks problem.now tasks.now }
    requires list { (list : ℕ) × (list < 2) × (tasks.now ≡ task_list problem.now list) }
    requires layouts { AreLaidOut problem.now tasks.now layouts.now }
    requires old { AreOldSlots problem.now tasks.now old.now }
    ensures { IfOk result (λ all. all ≡ reads_of_list problem.now tasks.now) }
{
    let mut searches = Searches::new(alloc);
    let sources = Sources {
        problem,
        tasks,
        layouts,
        old,
    };
    let mut all = Items::new(alloc);
    for (task, t) in tasks.iter().enumerate() {
        put_task(alloc, &mut all, &sources, task, t, &mut searches)?;
    }
    Ok(all)
}
