//! Where the slots of a list's tasks stand.
ghost use Rattle.std.specs.Prelude.{◌≡◌, ◌+◌, ◌*◌, ◌<◌, ◌≤◌, ◌++◌, ℕ, All, IfOk, filter, length, ◌==◌};
ghost use Rattle.std.specs.List.{position};
ghost use Rattle.problem_types.specs.Form.{IsProblemInForm, IsTaskInForm};
ghost use Rattle.problem_types.specs.Lists.{task_list};
ghost use Rattle.task_check.specs.Bounds.{AreBoundedTasks, IsBounded, IsBoundedTask};
ghost use Rattle.task_check.specs.Plan.{is_read, old_numbers, old_variables, slots_of};
ghost use Rattle.task_check.specs.Sizes.{part_count, patches_on, reduces_count};
ghost use Rattle.graph_compiler.specs.Layouts.{AreLaidOut, before, parts_before};

use crate::details::patch_count;
use problem_types::{NoMemory, Problem, Task};
use sqlite_items::Items;
use std::alloc::Global;
use task_check::reduces_count;

/// Where the slots of a task stand: those on patches first, those of a detailed task in a row, and then the numbers.
#[derive(Clone, Copy, Debug, PartialEq, Eq)]
pub(crate) struct Layout {
    pub(crate) first: u32,
    /// How many detailed tasks there are on patches.
    pub(crate) parts: u32,
    /// How many slots each of them writes.
    pub(crate) lines: u32,
    /// How many numbers there are.
    pub(crate) numbers: u32,
}

impl Layout {
    /// The slot behind the last one.
    fn end(self) -> u32
        requires { self.first + (self.parts * self.lines + self.numbers) ≤ 262144 }
        ensures { result ≡ self.first + (self.parts * self.lines + self.numbers) }
    {
        self.first + (self.parts * self.lines + self.numbers)
    }
}

/// How many patches the levels have together.
fn patches_on(p: &Problem, levels: &[u64]) -> u32
    requires limits { IsBounded p.now }
    requires known { All (λ level. level < length p.now.levels) levels.now }
    requires few { length levels.now ≤ 4 }
    ensures count { result ≡ patches_on p.now levels.now }
    ensures few { result ≤ 4096 }
{
    let mut total = 0;
    for level in levels {
        total += patch_count(p, *level as u32);
    }
    total
}

/// The layout of a task whose first slot is this one.
fn layout_of(p: &Problem, t: &Task, first: u32) -> Layout
    requires limits { IsBounded p.now }
    requires task { IsBoundedTask p.now t.now }
    requires form { IsTaskInForm (length p.now.names) t.now }
    ensures first { result.first ≡ first }
    ensures parts { result.parts ≡ part_count p.now t.now }
    ensures lines { result.lines ≡ length t.now.writes }
    ensures numbers { result.numbers ≡ reduces_count t.now.writes }
{
    Layout {
        first,
        parts: t.materials.len() as u32 * patches_on(p, t.levels.as_slice()),
        lines: t.writes.len() as u32,
        numbers: reduces_count(t.writes.as_slice()) as u32,
    }
}

/// Where the slots of the tasks stand, behind so many old ones.
pub(crate) fn layouts(
    alloc: Global,
    p: &Problem,
    tasks: &[Task],
    old: u32,
) -> Result<Items<Layout>, NoMemory>
    requires form { IsProblemInForm p.now }
    requires limits { IsBounded p.now }
    requires tasks { AreBoundedTasks p.now tasks.now }
    requires list { (list : ℕ) × (list < 2) × (tasks.now ≡ task_list p.now list) }
    requires old { old ≡ length (filter (is_read p.now tasks.now) (old_variables p.now ++ old_numbers p.now)) }
    requires few { length (slots_of p.now tasks.now) ≤ 262144 }
    ensures { IfOk result (λ layouts. AreLaidOut p.now tasks.now layouts) }
{
    let mut layouts = Items::new(alloc);
    let mut first = old;
    for t in tasks {
        let layout = layout_of(p, t, first);
        layouts.push(layout)?;
        first = layout.end();
    }
    Ok(layouts)
}

/// Where the number stands among some.
fn place_of(number: u64, numbers: &[u64]) -> Option<usize>
    ensures { result ≡ position (λ m. m == number) numbers.now }
{
    numbers.iter().position(|m| *m == number)
}

/// How many of the numbers come before this one.
fn before(number: u64, numbers: &[u64]) -> usize
    ensures { result ≡ before number numbers.now }
{
    place_of(number, numbers).unwrap_or(0)
}

/// How many detailed tasks a task has on patches before those of a level and a material.
pub(crate) fn parts_before(p: &Problem, t: &Task, level: u64, material: u64) -> u32
    requires limits { IsBounded p.now }
    requires task { IsBoundedTask p.now t.now }
    requires form { IsTaskInForm (length p.now.names) t.now }
    requires level { level < length p.now.levels }
    ensures count { result ≡ parts_before p.now t.now level material }
    ensures few { result ≤ 65536 }
{
    let levels = t.levels.as_slice();
    let materials = t.materials.as_slice();
    let below = before(level, levels);
    materials.len() as u32 * patches_on(p, &levels[..below])
        + before(material, materials) as u32 * patch_count(p, level as u32)
}
