//! Where what the requirements of the tasks of a list want stands.
ghost use Rattle.std.specs.Prelude.{◌≡◌, ◌+◌, ◌*◌, ◌<◌, ◌≤◌, ◌==◌, ◌&&◌, ◌∷◌, ◌++◌, [], true, ℕ, Some, Contains, IfOk, OnOk, length, option_map, slice_get};
ghost use Rattle.std.specs.List.{position};
ghost use Rattle.std.specs.Option.{option_to_list};
ghost use Rattle.kernel_ast.specs.declared.expression.Store.TheVariants as store;
ghost use Rattle.problem_types.specs.Lists.{is_of_field};
ghost use Rattle.task_rules.specs.Lines.{wanted_name};
ghost use Rattle.task_rules.specs.Names.{IsReduction};
ghost use Rattle.task_check.specs.Plan.{OldNumber, has_variable, is_read, writes_variable};
ghost use Rattle.graph_compiler.specs.Searched.{AreMore, AreSearched};
ghost use Rattle.graph_compiler.specs.declared.sources.Source.TheVariants.{Number};
ghost use Rattle.graph_compiler.specs.Sources.{AreFrom, AreSourcesOf, HasNumberAt, IsLast, IsNumberAmong, IsSourceOf, IsWriterSource, is_of_reduction};

use crate::layout::{Layout, parts_before};
use crate::old_places::old_place;
use crate::old_slots::OldSlots;
use crate::touched::Searches;
use problem_lookup::{centring_of, field_write, is_of_field, is_reduces};
use problem_types::{NoMemory, Problem, Require, Store, Task, Write, reduction_of, var_of};
use sqlite_items::Items;
use std::alloc::{AllocError, Global};
use task_check::{reach_of, reached_level, reduces_count};
use task_rules::{runs_on, wanted_name};

/// Where what a requirement wants stands for a level and a material: the number of a reduction; or, of a variable, by the search for its
/// windows, the slots of the patches at equal distances, or the old slots.
#[derive(Clone, Copy, Debug, PartialEq, Eq)]
pub(crate) enum Source {
    Number(u32),
    New {
        search: usize,
        first: u32,
        lines: u32,
    },
    Old {
        search: usize,
        first: u32,
    },
}

/// What the reads of a list are found from.
#[derive(Clone, Copy)]
pub(crate) struct Sources<'a> {
    pub(crate) problem: &'a Problem,
    pub(crate) tasks: &'a [Task],
    pub(crate) layouts: &'a [Layout],
    pub(crate) old: &'a OldSlots,
}

/// The first line that computes or modifies the variable.
fn field_line(writes: &[Write], name: u32) -> Option<usize>
    ensures { result ≡ position (λ w. (w.name == name) && is_of_field w.kind) writes.now }
{
    writes
        .iter()
        .position(|w| w.name == name && is_of_field(w.kind))
}

/// The first line that reduces the name.
fn reduction_line(writes: &[Write], name: u32) -> Option<usize>
    ensures { result ≡ position (is_of_reduction name) writes.now }
{
    writes
        .iter()
        .position(|w| w.name == name && is_reduces(w.kind))
}

/// Whether the task runs on the material and the level, and writes the variable.
fn writes_variable(t: &Task, name: u32, material: u64, level: u64) -> bool
    ensures { result ≡ writes_variable name material level t.now }
{
    runs_on(t, material, level) && field_write(t, name).is_some()
}

/// The last of the tasks that writes the variable on the material and the level.
fn last_writer(tasks: &[Task], name: u32, material: u64, level: u64) -> Option<usize>
    ensures { IsLast (writes_variable name material level) tasks.now result }
{
    let mut last = None;
    for (place, t) in tasks.iter().enumerate() {
        if writes_variable(t, name, material, level) {
            last = Some(place);
        }
    }
    last
}

/// Where the number of a reduction stands among those of a task.
fn number_of(t: &Task, name: u32) -> Option<u32>
    requires { length t.now.writes ≤ 64 }
    ensures { IsNumberAmong t.now.writes name result }
{
    let writes = t.writes.as_slice();
    match reduction_line(writes, name) {
        Some(line) => Some(reduces_count(&writes[..line]) as u32),
        None => None,
    }
}

/// The slot of a task's number.
fn number_slot(layout: Layout, number: u32) -> u32
    requires few { layout.first + (layout.parts * layout.lines + layout.numbers) ≤ 262144 }
    requires within { number ≤ layout.numbers }
    ensures { result ≡ layout.first + (layout.parts * layout.lines + number) }
{
    layout.first + (layout.parts * layout.lines + number)
}

/// The slot of a line of the detailed task behind so many of a task's.
fn line_slot(layout: Layout, before: u32, line: usize) -> u32
    requires first { layout.first ≤ 262144 }
    requires lines { layout.lines ≤ 64 }
    requires before { before ≤ 65536 }
    requires line { line < 64 }
    ensures { result ≡ layout.first + before * layout.lines + line }
{
    layout.first + before * layout.lines + line as u32
}

/// The source of a number that was found.
fn number_source(found: Option<u32>) -> Option<Source>
    ensures { result ≡ option_map Number found }
{
    found.map(Source::Number)
}

/// Puts a source at the end, if there is one.
fn put_found(sources: &mut Items<Source>, found: Option<Source>) -> Result<(), AllocError>
    ensures { OnOk result (sources.new ≡ sources.old ++ option_to_list found) }
{
    match found {
        Some(source) => sources.push(source),
        None => Ok(()),
    }
}

impl Sources<'_> {
    /// The layout of a task by its place.
    pub(crate) fn layout_at(&self, place: usize) -> Layout
        requires { place < length self.now.layouts.now }
        ensures { slice_get self.now.layouts.now place ≡ Some result }
    {
        self.layouts[place]
    }

    /// The slot of a reduction's number.
    fn new_number(&self, name: u32) -> Option<u32>
        requires { AreFrom self.now }
        ensures { HasNumberAt self.now.problem.now self.now.tasks.now store.New name result }
    {
        for (place, t) in self.tasks.iter().enumerate() {
            if let Some(number) = number_of(t, name) {
                return Some(number_slot(self.layout_at(place), number));
            }
        }
        None
    }

    /// The slot of a reduction as the step before left it.
    fn old_number(&self, name: u32) -> Option<u32>
        requires from { AreFrom self.now }
        requires known { IsReduction self.now.problem.now name }
        requires read { is_read self.now.problem.now self.now.tasks.now (OldNumber name) ≡ true }
        ensures { HasNumberAt self.now.problem.now self.now.tasks.now store.Old name result }
    {
        match reduction_of(self.problem, name) {
            Some(place) => Some(self.old.numbers[place]),
            None => None,
        }
    }

    /// The slot of a reduction in a store.
    fn number(&self, at: Store, name: u32) -> Option<u32>
        requires from { AreFrom self.now }
        requires known { IsReduction self.now.problem.now name }
        requires read { at ≡ store.Old → is_read self.now.problem.now self.now.tasks.now (OldNumber name) ≡ true }
        ensures { HasNumberAt self.now.problem.now self.now.tasks.now at name result }
    {
        match at {
            Store::Old => self.old_number(name),
            Store::New => self.new_number(name),
        }
    }

    /// Where the slots of a variable stand that a task writes on a level, for a material.
    fn writer_source(
        &self,
        writer: usize,
        t: &Task,
        search: usize,
        name: u32,
        level: u64,
        material: u64,
    ) -> Option<Source>
        requires from { AreFrom self.now }
        requires task { slice_get self.now.tasks.now writer ≡ Some t.now }
        requires writes { writes_variable name material level t.now ≡ true }
        ensures { IsWriterSource self.now.problem.now self.now.tasks.now writer name level material search result }
    {
        let line = field_line(t.writes.as_slice(), name)?;
        let layout = self.layout_at(writer);
        let before = parts_before(self.problem, t, level, material);
        Some(Source::New {
            search,
            first: line_slot(layout, before, line),
            lines: layout.lines,
        })
    }

    /// The same for the last of the tasks before a place that writes the variable.
    fn new_source(
        &self,
        task: usize,
        search: usize,
        name: u32,
        level: u64,
        material: u64,
    ) -> Option<Source>
        requires from { AreFrom self.now }
        requires task { task ≤ length self.now.tasks.now }
        ensures { IsSourceOf self.now.problem.now self.now.tasks.now (has_variable self.now.tasks.now task store.New name material level) level search
            self.now.old.now.variables.items result }
    {
        let earlier = &self.tasks[..task];
        match last_writer(earlier, name, material, level) {
            Some(writer) => {
                self.writer_source(writer, &earlier[writer], search, name, level, material)
            }
            None => None,
        }
    }

    /// Where the slots of a variable stand on a level, for a material, as the step before left it.
    fn old_source(&self, search: usize, name: u32, level: u64, material: u64) -> Option<Source>
        requires from { AreFrom self.now }
        requires level { level < length self.now.problem.now.levels }
        requires material { material < self.now.problem.now.materials.value }
        ensures { (task : ℕ) → IsSourceOf self.now.problem.now self.now.tasks.now (has_variable self.now.tasks.now task store.Old name material level) level search
            self.now.old.now.variables.items result }
    {
        match var_of(self.problem, name) {
            Some(var) => Some(Source::Old {
                search,
                first: old_place(self.problem, var, level as u32, material as u32) as u32,
            }),
            None => None,
        }
    }

    /// Where the slots of a variable stand on a level, for a material, in a store.
    fn variable_source(
        &self,
        task: usize,
        at: Store,
        search: usize,
        name: u32,
        level: u64,
        material: u64,
    ) -> Option<Source>
        requires from { AreFrom self.now }
        requires task { task ≤ length self.now.tasks.now }
        requires level { level < length self.now.problem.now.levels }
        requires material { material < self.now.problem.now.materials.value }
        ensures { IsSourceOf self.now.problem.now self.now.tasks.now (has_variable self.now.tasks.now task at name material level) level search
            self.now.old.now.variables.items result }
    {
        match at {
            Store::Old => self.old_source(search, name, level, material),
            Store::New => self.new_source(task, search, name, level, material),
        }
    }

    /// Where what a requirement wants stands for a level and a material of its task.
    fn source(
        &self,
        alloc: Global,
        task: usize,
        t: &Task,
        r: Require,
        level: u64,
        material: u64,
        searches: &mut Searches,
    ) -> Result<Option<Source>, NoMemory>
        requires from { AreFrom self.now }
        requires task { slice_get self.now.tasks.now task ≡ Some t.now }
        requires level { Contains t.now.levels level }
        requires material { Contains t.now.materials material }
        requires requirement { Contains t.now.requirements r }
        requires searched { AreSearched self.now.problem.now searches.old.made }
        ensures searched { OnOk result (AreSearched self.now.problem.now searches.new.made) }
        ensures more { OnOk result (AreMore searches.old.made searches.new.made) }
        ensures source { IfOk result (λ found. AreSourcesOf self.now.problem.now self.now.tasks.now task t.now level material (r ∷ [])
            searches.new.made self.now.old.now.variables.items (option_to_list found)) }
    {
        let name = wanted_name(r.what);
        match reach_of(t, r) {
            None => Ok(number_source(self.number(r.store, name))),
            Some(reach) => {
                let c = centring_of(self.problem, name);
                let search = searches.place_of(alloc, self.problem, level, reach, c)?;
                let wanted = reached_level(reach, level);
                Ok(self.variable_source(task, r.store, search, name, wanted, material))
            }
        }
    }

    /// Where what the requirements of a task want stands for a level and a material.
    pub(crate) fn sources(
        &self,
        alloc: Global,
        task: usize,
        t: &Task,
        level: u64,
        material: u64,
        searches: &mut Searches,
    ) -> Result<Items<Source>, NoMemory>
        requires from { AreFrom self.now }
        requires task { slice_get self.now.tasks.now task ≡ Some t.now }
        requires level { Contains t.now.levels level }
        requires material { Contains t.now.materials material }
        requires searched { AreSearched self.now.problem.now searches.old.made }
        ensures searched { OnOk result (AreSearched self.now.problem.now searches.new.made) }
        ensures more { OnOk result (AreMore searches.old.made searches.new.made) }
        ensures sources { IfOk result (λ sources. AreSourcesOf self.now.problem.now self.now.tasks.now task t.now level material t.now.requirements
            searches.new.made self.now.old.now.variables.items sources) }
    {
        let mut sources = Items::new(alloc);
        for r in t.requirements.as_slice() {
            let found = self.source(alloc, task, t, *r, level, material, searches)?;
            put_found(&mut sources, found)?;
        }
        Ok(sources)
    }
}
