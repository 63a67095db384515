//! The lines of a plan.
ghost use Rattle.std.specs.Prelude.{◌≡◌, ◌+◌, ◌<◌, ◌^◌, List, ℕ, Some, IfOk, OnOk, length, map, slice_get};
ghost use Rattle.std.specs.List.{range_with_len, sum_by};
ghost use Rattle.graph_text.specs.Listing.{numbered, plan_line, plan_lines, slot_line, task_line};
ghost use Rattle.graph_text.specs.Predecessors.{predecessors_of};

use crate::NoMemory;
use crate::lists::{item_at, list_at};
use crate::predecessors::predecessors;
use crate::putting::{list_word, put_labelled, put_labelled_long};
use crate::slots::put_slot_line;
use crate::tasks::put_task_line;
use graph_compiler::{ListKind, Plan};
use graph_types::Graph;
use problem_types::Problem;
use sqlite_items::Items;
use std::alloc::Global;
use std::marker::Model;

/// The lines of a plan, each with its line feed, put one at a time. Contracts see their list.
#[derive(Drop)]
pub struct PlanLines<'a> {
    problem: &'a Problem,
    list: ListKind,
    plan: &'a Plan,
    /// For each detailed task those that it waits for.
    predecessors: Items<Items<u32>>,
}

impl<'a> Model for PlanLines<'a> {
    ghost Value = { List (List ℕ) };

    ghost view = { λ lines. plan_lines lines.problem.now lines.list lines.plan.now };

    ghost invariant = { λ lines. lines.predecessors ≡ map (predecessors_of lines.plan.now.graph) (range_with_len 0 (length lines.plan.now.tasks)) };
}

impl<'a> PlanLines<'a> {
    /// The lines of the plan of a list. It takes memory for the tasks that each one waits for.
    pub fn new(
        alloc: Global,
        problem: &'a Problem,
        list: ListKind,
        plan: &'a Plan,
    ) -> Result<PlanLines<'a>, NoMemory>
        ensures { IfOk result (λ lines. lines ≡ plan_lines problem.now list plan.now) }
    {
        let predecessors = predecessors(alloc, &plan.graph, plan.tasks.len())?;
        Ok(PlanLines {
            problem,
            list,
            plan,
            predecessors,
        })
    }

    /// How many lines there are.
    pub fn len(&self) -> usize
        ensures { result ≡ length self.now }
    {
        line_count(self.plan)
    }

    /// Makes `line` the line of this number, from 0. After an error `line` holds a part of it, or none.
    pub fn put(&self, line: &mut Vec<u8>, number: usize) -> Result<(), NoMemory>
        requires { number < length self.now }
        ensures { OnOk result (slice_get self.now number ≡ Some line.new.items) }
    {
        put_line(
            line,
            self.problem,
            self.list,
            self.plan,
            &self.predecessors,
            number,
        )
    }
}

/// How many lines a plan has.
fn line_count(plan: &Plan) -> usize
    ensures { result ≡ 1 + length plan.now.slots + length plan.now.tasks }
{
    let slots = plan.slots.as_slice();
    let tasks = plan.tasks.as_slice();
    1 + slots.len() + tasks.len()
}

/// The sum of two lengths. Lists that are 2^63 long together lie in no memory, so none is left then.
fn sum_below(a: u64, b: usize) -> Result<u64, NoMemory>
    ensures sum { IfOk result (λ sum. sum ≡ a + b) }
    ensures few { IfOk result (λ sum. sum < 2 ^ 63) }
{
    match a.checked_add(b as u64) {
        Some(sum) if sum < 1 << 63 => Ok(sum),
        _ => Err(NoMemory),
    }
}

/// How many slots all tasks read, each counted at each task.
fn read_count(g: &Graph) -> Result<u64, NoMemory>
    ensures count { IfOk result (λ count. count ≡ sum_by length g.now.reads) }
    ensures few { IfOk result (λ count. count < 2 ^ 63) }
{
    let mut count = 0;
    for slots in g.reads.as_slice() {
        count = sum_below(count, slots.len())?;
    }
    Ok(count)
}

/// Makes `line` the line of the plan itself.
fn put_plan_line(line: &mut Vec<u8>, list: ListKind, g: &Graph) -> Result<(), NoMemory>
    ensures { OnOk result (line.new.items ≡ plan_line list g.now) }
{
    let reads = read_count(g)?;
    line.clear();
    line.extend_from_slice(b"plan ")?;
    line.extend_from_slice(list_word(list))?;
    put_labelled(line, b" tasks ", g.tasks)?;
    put_labelled(line, b" slots ", g.slots)?;
    put_labelled_long(line, b" reads ", reads)?;
    line.push(b'\n')?;
    Ok(())
}

/// Makes `line` the line of the slot of this number.
fn put_slot(line: &mut Vec<u8>, p: &Problem, plan: &Plan, number: usize) -> Result<(), NoMemory>
    requires { number < length plan.now.slots }
    ensures { OnOk result (slice_get (numbered (slot_line p.now plan.now.graph) plan.now.slots) number ≡ Some line.new.items) }
{
    let slots = plan.slots.as_slice();
    let s = item_at(slots, number);
    put_slot_line(line, p, &plan.graph, number, s)
}

/// Makes `line` the line of the detailed task of this number.
fn put_task(
    line: &mut Vec<u8>,
    p: &Problem,
    list: ListKind,
    plan: &Plan,
    predecessors: &Items<Items<u32>>,
    number: usize,
) -> Result<(), NoMemory>
    requires within { number < length plan.now.tasks }
    requires predecessors { predecessors.now ≡ map (predecessors_of plan.now.graph) (range_with_len 0 (length plan.now.tasks)) }
    ensures { OnOk result (slice_get (numbered (task_line p.now list plan.now.graph) plan.now.tasks) number ≡ Some line.new.items) }
{
    let tasks = plan.tasks.as_slice();
    let d = item_at(tasks, number);
    put_task_line(
        line,
        p,
        list,
        &plan.graph,
        list_at(predecessors, number),
        number,
        d,
    )
}

/// Makes `line` the line of this number.
fn put_line(
    line: &mut Vec<u8>,
    p: &Problem,
    list: ListKind,
    plan: &Plan,
    predecessors: &Items<Items<u32>>,
    number: usize,
) -> Result<(), NoMemory>
    requires within { number < length (plan_lines p.now list plan.now) }
    requires predecessors { predecessors.now ≡ map (predecessors_of plan.now.graph) (range_with_len 0 (length plan.now.tasks)) }
    ensures { OnOk result (slice_get (plan_lines p.now list plan.now) number ≡ Some line.new.items) }
{
    let slots = plan.slots.as_slice().len();
    if number == 0 {
        put_plan_line(line, list, &plan.graph)
    } else if number <= slots {
        put_slot(line, p, plan, number - 1)
    } else {
        put_task(line, p, list, plan, predecessors, number - 1 - slots)
    }
}
