//! The whole listing.
ghost use Rattle.std.specs.Prelude.{◌≡◌, ◌++◌, ◌∷◌, [], IfOk, OnOk, map, slice_get, Some};
ghost use Rattle.graph_compiler.specs.Plan.{plan_of};
ghost use Rattle.graph_text.specs.Listing.{lines_of_plans, listed, listing_lines, plan_lines};

use crate::{NoMemory, PlanLines};
use graph_compiler::{ListKind, Plan, StepKind, compile};
use problem_types::Problem;
use std::alloc::Global;
use task_check::Checked;

/// Puts a line of these bytes behind others.
fn push_line(alloc: Global, lines: &mut Vec<Vec<u8>>, bytes: &[u8]) -> Result<(), NoMemory>
    ensures { OnOk result (map (λ l. l.items) lines.new.items ≡ map (λ l. l.items) lines.old.items ++ bytes.now ∷ []) }
{
    lines.push(Vec::from_slice(alloc, bytes)?)?;
    Ok(())
}

/// Puts the lines of a plan behind others.
fn push_lines(alloc: Global, lines: &mut Vec<Vec<u8>>, of_plan: &PlanLines) -> Result<(), NoMemory>
    ensures { OnOk result (map (λ l. l.items) lines.new.items ≡ map (λ l. l.items) lines.old.items ++ of_plan.now) }
{
    let mut line = Vec::new(alloc);
    for number in 0..of_plan.len() {
        of_plan.put(&mut line, number)?;
        push_line(alloc, lines, &line)?;
    }
    Ok(())
}

/// Puts the lines of the plan of a list behind others.
fn push_plan(
    alloc: Global,
    lines: &mut Vec<Vec<u8>>,
    p: &Problem,
    list: ListKind,
    plan: &Plan,
) -> Result<(), NoMemory>
    ensures { OnOk result (map (λ l. l.items) lines.new.items ≡ map (λ l. l.items) lines.old.items ++ plan_lines p.now list plan.now) }
{
    let of_plan = PlanLines::new(alloc, p, list, plan)?;
    push_lines(alloc, lines, &of_plan)
}

/// The plan of a list for a step that another one follows and the dump shows.
fn plan_listed(alloc: Global, c: &Checked, list: ListKind) -> Result<Plan, NoMemory>
    ensures { IfOk result (λ plan. plan ≡ plan_of c.now (listed list)) }
{
    let kind = StepKind {
        list,
        next: true,
        dump: true,
    };
    compile(alloc, c, kind).map_err(|_| NoMemory)
}

/// The lines of the listing of a problem, each with its line feed. `docs/task-graph.md` states what stands in them.
pub fn listing(alloc: Global, c: &Checked) -> Result<Vec<Vec<u8>>, NoMemory>
    ensures { IfOk result (λ lines. map (λ l. l.items) lines.items ≡ listing_lines c.now) }
{
    let init = plan_listed(alloc, c, ListKind::Init)?;
    let timestep = plan_listed(alloc, c, ListKind::Timestep)?;
    listing_of(alloc, c.problem(), &init, &timestep)
}

/// The listing of the two plans of a problem: its lines, each with its line feed. Of the plans that a problem has for steps that
/// another one follows and the dump shows, this is the listing of the problem.
pub(crate) fn listing_of(
    alloc: Global,
    p: &Problem,
    init: &Plan,
    timestep: &Plan,
) -> Result<Vec<Vec<u8>>, NoMemory>
    ensures { IfOk result (λ lines. map (λ l. l.items) lines.items ≡ lines_of_plans p.now init.now timestep.now) }
{
    let mut lines = Vec::new(alloc);
    push_line(alloc, &mut lines, b"graph 1\n")?;
    push_plan(alloc, &mut lines, p, ListKind::Init, init)?;
    push_plan(alloc, &mut lines, p, ListKind::Timestep, timestep)?;
    push_line(alloc, &mut lines, b"end\n")?;
    Ok(lines)
}
