//! The detailed tasks of a list, in order.
ghost use Rattle.std.specs.Prelude.{◌≡◌, ◌++◌, ◌∷◌, ◌<◌, ◌≤◌, [], All, IfOk, filter, OnOk, length, map, slice_get, if◌then◌else◌};
ghost use Rattle.std.specs.List.{flat_map};
ghost use Rattle.std.specs.Option.{option_map_or};
ghost use Rattle.uts_geom.specs.Spans.{counted};
ghost use Rattle.problem_types.specs.Form.{IsShort};
ghost use Rattle.problem_types.specs.Lists.{is_reduces};
ghost use Rattle.task_check.specs.Bounds.{AreBoundedTasks, IsBounded, IsBoundedTask};
ghost use Rattle.task_check.specs.Plan.{Combining, OnPatch, combining, line_is, on_patches, patches_of};
ghost use Rattle.graph_compiler.specs.Plan.{tasks_of_list};
ghost use Rattle.graph_compiler.specs.Shown.{shown_task};

use crate::plan::Detail;
use problem_lookup::is_reduces;
use problem_types::{NoMemory, Problem, Task, Write};
use sqlite_items::Items;
use std::alloc::{AllocError, Global};

/// How many patches the level has: none where there is no such level.
fn patches_on(p: &Problem, level: u32) -> usize
    ensures { result ≡ option_map_or (λ l. length l.patches) (slice_get p.now.levels level) 0 }
{
    p.levels
        .as_slice()
        .get(level as usize)
        .map_or(0, |l| l.patches.len())
}

/// How many patches the level has.
#[tactic(auto, using(crate::proofs::Bounded::few_patches))]
pub(crate) fn patch_count(p: &Problem, level: u32) -> u32
    requires { IsBounded p.now }
    ensures patches { patches_of p.now level ≡ counted 0 result }
    ensures few { result ≤ 1024 }
{
    patches_on(p, level) as u32
}

/// Puts the detailed tasks on the patches of a level at the end, for a material.
#[tactic(auto, using(crate::proofs::Growing::put_place))]
fn put_patches(
    details: &mut Items<Detail>,
    p: &Problem,
    task: u32,
    level: u32,
    material: u32,
) -> Result<(), AllocError>
    requires { IsBounded p.now }
    ensures { OnOk result (details.new ≡ details.old ++ map shown_task (map (OnPatch task level material) (patches_of p.now level))) }
{
    for patch in 0..patch_count(p, level) {
        details.push(Detail {
            task,
            level,
            material,
            patch,
            combine: None,
        })?;
    }
    Ok(())
}

/// Puts the detailed tasks of a task on the patches of a level at the end, material by material.
fn put_materials(
    details: &mut Items<Detail>,
    p: &Problem,
    task: u32,
    t: &Task,
    level: u32,
) -> Result<(), AllocError>
    requires limits { IsBounded p.now }
    requires task { IsBoundedTask p.now t.now }
    ensures { OnOk result (details.new ≡ details.old
        ++ map shown_task (flat_map (λ material. map (OnPatch task level material) (patches_of p.now level)) t.now.materials)) }
{
    for material in t.materials.as_slice() {
        put_patches(details, p, task, level, *material as u32)?;
    }
    Ok(())
}

/// Puts the detailed tasks of a task on patches at the end, level by level.
fn put_levels(
    details: &mut Items<Detail>,
    p: &Problem,
    task: u32,
    t: &Task,
) -> Result<(), AllocError>
    requires limits { IsBounded p.now }
    requires task { IsBoundedTask p.now t.now }
    ensures { OnOk result (details.new ≡ details.old ++ map shown_task (on_patches p.now task t.now)) }
{
    for level in t.levels.as_slice() {
        put_materials(details, p, task, t, *level as u32)?;
    }
    Ok(())
}

/// Whether the line of this number reduces.
fn reduces_at(writes: &[Write], line: u32) -> bool
    ensures { result ≡ line_is writes.now (λ w. is_reduces w.kind) line }
{
    writes
        .get(line as usize)
        .map_or(false, |w| is_reduces(w.kind))
}

/// Puts a detailed task that combines the parts of a line at the end, if the line reduces.
fn put_if(
    details: &mut Items<Detail>,
    task: u32,
    line: u32,
    reduces: bool,
) -> Result<(), AllocError>
    ensures { OnOk result (details.new ≡ details.old ++ map shown_task (if reduces then Combining task line ∷ [] else [])) }
{
    if reduces {
        details.push(Detail {
            task,
            level: 0,
            material: 0,
            patch: 0,
            combine: Some(line),
        })?;
    }
    Ok(())
}

/// Puts the detailed tasks that combine at the end.
#[tactic(auto, using(crate::proofs::Growing::put_passing))]
fn put_combining(details: &mut Items<Detail>, task: u32, writes: &[Write]) -> Result<(), AllocError>
    requires { IsShort writes.now }
    ensures { OnOk result (details.new ≡ details.old
        ++ map shown_task (map (Combining task) (filter (line_is writes.now (λ w. is_reduces w.kind)) (counted 0 (length writes.now))))) }
{
    for line in 0..writes.len() as u32 {
        put_if(details, task, line, reduces_at(writes, line))?;
    }
    Ok(())
}

/// Puts the detailed tasks of a task at the end.
fn put_task(details: &mut Items<Detail>, p: &Problem, task: u32, t: &Task) -> Result<(), AllocError>
    requires limits { IsBounded p.now }
    requires task { IsBoundedTask p.now t.now }
    requires few_lines { IsShort t.now.writes }
    ensures { OnOk result (details.new ≡ details.old ++ map shown_task (on_patches p.now task t.now ++ combining task t.now)) }
{
    put_levels(details, p, task, t)?;
    put_combining(details, task, t.writes.as_slice())
}

/// The detailed tasks of a list.
pub(crate) fn detailed_tasks(
    alloc: Global,
    p: &Problem,
    tasks: &[Task],
) -> Result<Items<Detail>, NoMemory>
    requires limits { IsBounded p.now }
    requires tasks { AreBoundedTasks p.now tasks.now }
    requires few_lines { All (λ t. IsShort t.writes) tasks.now }
    ensures { IfOk result (λ details. details ≡ tasks_of_list p.now tasks.now) }
{
    let mut details = Items::new(alloc);
    for (task, t) in tasks.iter().enumerate() {
        put_task(&mut details, p, task as u32, t)?;
    }
    Ok(details)
}
