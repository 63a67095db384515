//! The listing of a problem's task graphs, written a line at a time.
ghost use Rattle.std.specs.Prelude.{◌≡◌, ◌<◌, List, Some, ℕ, length, slice_get};
ghost use Rattle.std.specs.List.{flat_map};
ghost use Rattle.dump_text.specs.Writing.{Writes};
ghost use Rattle.graph_text.specs.Listing.{listing_bytes, plan_lines};
ghost use Rattle.uts.specs.Listed.{list_text, plans_text, timestep_text};

use graph_compiler::{ListKind, Plan, StepKind, compile};
use graph_text::PlanLines;
use plain_engine::RunFault;
use std::alloc::Global;
use task_check::Checked;
use uts_io::{Sink, write_all};

/// Writes these bytes.
fn write_bytes<O: Sink>(out: &mut O, bytes: &[u8]) -> Result<(), RunFault>
    ensures { Writes O.after (O.taken out.old) (O.taken out.new) (O.faults out.old) (O.faults out.new) result bytes.now }
{
    write_all(out, bytes)?;
    Ok(())
}

/// Writes one line of a plan. `line` is room for it.
fn write_line<O: Sink>(
    lines: &PlanLines,
    number: usize,
    line: &mut Vec<u8>,
    out: &mut O,
) -> Result<(), RunFault>
    requires { number < length lines.now }
    ensures { (text : List ℕ) → slice_get lines.now number ≡ Some text
        → Writes O.after (O.taken out.old) (O.taken out.new) (O.faults out.old) (O.faults out.new) result text }
{
    lines.put(line, number).map_err(|_| RunFault::NoMemory)?;
    write_bytes(out, line)
}

/// Writes all lines of a plan.
fn write_lines<O: Sink>(alloc: Global, lines: &PlanLines, out: &mut O) -> Result<(), RunFault>
    ensures { Writes O.after (O.taken out.old) (O.taken out.new) (O.faults out.old) (O.faults out.new) result (flat_map (λ bytes. bytes) lines.now) }
{
    let mut line = Vec::new(alloc);
    for number in 0..lines.len() {
        write_line(lines, number, &mut line, out)?;
    }
    Ok(())
}

/// Writes the lines of the plan of a list.
fn write_plan<O: Sink>(
    alloc: Global,
    c: &Checked,
    list: ListKind,
    plan: &Plan,
    out: &mut O,
) -> Result<(), RunFault>
    ensures { Writes O.after (O.taken out.old) (O.taken out.new) (O.faults out.old) (O.faults out.new) result
        (flat_map (λ bytes. bytes) (plan_lines c.now list plan.now)) }
{
    let lines = PlanLines::new(alloc, c.problem(), list, plan).map_err(|_| RunFault::NoMemory)?;
    write_lines(alloc, &lines, out)
}

/// Writes the lines of the plan of a list, for a step that another one follows and the dump shows.
fn write_list<O: Sink>(
    alloc: Global,
    c: &Checked,
    list: ListKind,
    out: &mut O,
) -> Result<(), RunFault>
    ensures { Writes O.after (O.taken out.old) (O.taken out.new) (O.faults out.old) (O.faults out.new) result
        (list_text c.now list) }
{
    let kind = StepKind {
        list,
        next: true,
        dump: true,
    };
    let plan = compile(alloc, c, kind).map_err(|_| RunFault::NoMemory)?;
    write_plan(alloc, c, list, &plan, out)
}

/// Writes the lines of the timestep list's plan, and the last line.
fn write_timestep<O: Sink>(alloc: Global, c: &Checked, out: &mut O) -> Result<(), RunFault>
    ensures { Writes O.after (O.taken out.old) (O.taken out.new) (O.faults out.old) (O.faults out.new) result (timestep_text c.now) }
{
    write_list(alloc, c, ListKind::Timestep, out)?;
    write_bytes(out, b"end\n")
}

/// Writes the lines of both plans, and the last line.
fn write_plans<O: Sink>(alloc: Global, c: &Checked, out: &mut O) -> Result<(), RunFault>
    ensures { Writes O.after (O.taken out.old) (O.taken out.new) (O.faults out.old) (O.faults out.new) result (plans_text c.now) }
{
    write_list(alloc, c, ListKind::Init, out)?;
    write_timestep(alloc, c, out)
}

/// Writes the listing of a problem's task graphs. One plan is made at a time. After an error the sink has taken a prefix of the listing.
pub fn write_listing<O: Sink>(alloc: Global, c: &Checked, out: &mut O) -> Result<(), RunFault>
    ensures { Writes O.after (O.taken out.old) (O.taken out.new) (O.faults out.old) (O.faults out.new) result (listing_bytes c.now) }
{
    write_bytes(out, b"graph 1\n")?;
    write_plans(alloc, c, out)
}
