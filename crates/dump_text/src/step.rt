//! The part of a dump that shows a step.
ghost use Rattle.std.specs.Prelude.{◌≡◌, ◌<◌, ◌≤◌, map, length, IsTrue, OnOk, Some, slice_get, vec_len};
ghost use Rattle.std.specs.List.{AllZip};
ghost use Rattle.problem_types.specs.Form.{IsProblemInForm};
ghost use Rattle.problem_types.specs.Lists.{is_dumped};
ghost use Rattle.problem_types.specs.declared.problem.Keep.{Keep};
ghost use Rattle.task_check.specs.Bounds.{IsBounded};
ghost use Rattle.probes.specs.Watching.{after_rows};
ghost use Rattle.uts_model.specs.Dump.{by_keeps, step_line, step_rows, step_text};
ghost use Rattle.dump_text.specs.Keeps.{at_keep};
ghost use Rattle.dump_text.specs.Lines.{keep_lines, step_lines};
ghost use Rattle.dump_text.specs.Showing.{CallShows, HasSeenSome};
ghost use Rattle.dump_text.specs.Supplies.{HasAllKept, shown_by};
ghost use Rattle.dump_text.specs.Writing.{Writes};

use crate::Rows;
use crate::buffers::Buffers;
use crate::fault::RunFault;
use crate::field::Kept;
use crate::keep::show_keep;
use crate::lines::{put_step_line, write_line};
use probes::Probe;
use problem_types::Problem;
use std::alloc::Global;
use task_check::{Checked, bounds};
use uts_io::Sink;

/// Hands the line that begins a step to the sink.
fn write_step_line<O: Sink>(step: u32, line: &mut Vec<u8>, sink: &mut O) -> Result<(), RunFault>
    ensures { Writes O.after (O.taken sink.old) (O.taken sink.new) (O.faults sink.old) (O.faults sink.new) result (step_line step) }
{
    put_step_line(line, step)?;
    write_line(sink, line)
}

/// The name that the `keep` line at this place shows.
fn kept_name(problem: &Problem, place: u32) -> u32
    requires { place < length problem.now.keeps }
    ensures { (keep : Keep) × (slice_get problem.now.keeps place ≡ Some keep) × (result ≡ keep.name) }
{
    problem.keeps.as_slice()[place as usize].name
}

/// Shows what stands for the kept name at this place.
fn show_keep_at<O: Sink, F: Rows>(
    problem: &Problem,
    step: u32,
    place: u32,
    buffers: &mut Buffers,
    fields: &mut F,
    sink: &mut O,
    probes: &mut Vec<Box<dyn Probe>>,
) -> Result<(), RunFault>
    requires form { IsProblemInForm problem.now }
    requires bounded { IsBounded problem.now }
    requires place { place < length problem.now.keeps }
    requires has { HasAllKept problem.now step (F.rows fields.old) (F.numbers fields.old) }
    ensures { let shown = shown_by (F.rows fields.old) (F.numbers fields.old) in
        CallShows O.after O.taken O.faults F.rows F.numbers sink.old sink.new fields.old fields.new probes.old.items probes.new.items
        (λ b. record { state = state b; next = next b; text = text b })
        result (at_keep problem.now (keep_lines problem.now shown step) place) }
{
    let name = kept_name(problem, place);
    let kept = Kept {
        problem,
        step,
        keep: place,
        name,
    };
    show_keep(&kept, buffers, fields, sink, probes)
}

/// Shows what stands for each kept name, in order.
fn show_keeps<O: Sink, F: Rows>(
    problem: &Problem,
    step: u32,
    buffers: &mut Buffers,
    fields: &mut F,
    sink: &mut O,
    probes: &mut Vec<Box<dyn Probe>>,
) -> Result<(), RunFault>
    requires form { IsProblemInForm problem.now }
    requires bounded { IsBounded problem.now }
    requires has { HasAllKept problem.now step (F.rows fields.old) (F.numbers fields.old) }
    ensures { let shown = shown_by (F.rows fields.old) (F.numbers fields.old) in
        CallShows O.after O.taken O.faults F.rows F.numbers sink.old sink.new fields.old fields.new probes.old.items probes.new.items
        (λ b. record { state = state b; next = next b; text = text b })
        result (by_keeps problem.now (keep_lines problem.now shown step)) }
{
    for place in 0..problem.keeps.len() as u32 {
        show_keep_at(problem, step, place, buffers, fields, sink, probes)?;
    }
    Ok(())
}

/// Shows a step: its line, and then what stands for each kept name.
fn show_step<O: Sink, F: Rows>(
    problem: &Problem,
    step: u32,
    buffers: &mut Buffers,
    fields: &mut F,
    sink: &mut O,
    probes: &mut Vec<Box<dyn Probe>>,
) -> Result<(), RunFault>
    requires form { IsProblemInForm problem.now }
    requires bounded { IsBounded problem.now }
    requires has { HasAllKept problem.now step (F.rows fields.old) (F.numbers fields.old) }
    ensures { let shown = shown_by (F.rows fields.old) (F.numbers fields.old) in
        CallShows O.after O.taken O.faults F.rows F.numbers sink.old sink.new fields.old fields.new probes.old.items probes.new.items
        (λ b. record { state = state b; next = next b; text = text b })
        result (step_lines problem.now shown step) }
{
    write_step_line(step, &mut buffers.line, sink)?;
    show_keeps(problem, step, buffers, fields, sink, probes)
}

/// Writes the part of the dump that shows a step, with the rows and the numbers that `fields` has. Each row is written, and
/// then noted by each probe in the order of the list. After an error the sink has taken a prefix of these bytes, and each
/// probe has noted the rows of the first lines: of all that the sink has taken, but perhaps for the last one.
pub fn dump_step<O: Sink, F: Rows>(
    alloc: Global,
    sink: &mut O,
    c: &Checked,
    step: u32,
    fields: &mut F,
    probes: &mut Vec<Box<dyn Probe>>,
) -> Result<(), RunFault>
    requires dumped { IsTrue (is_dumped c.now step) }
    requires within { step ≤ c.now.steps.value }
    requires has { HasAllKept c.now step (F.rows fields.old) (F.numbers fields.old) }
    ensures written { Writes O.after (O.taken sink.old) (O.taken sink.new) (O.faults sink.old) (O.faults sink.new) result
        (step_text c.now (shown_by (F.rows fields.old) (F.numbers fields.old)) step) }
    ensures all_noted { OnOk result (map (λ b. record { state = state b; next = next b; text = text b }) probes.new.items
        ≡ map (λ b. after_rows (step_rows c.now (shown_by (F.rows fields.old) (F.numbers fields.old)) step)
        (record { state = state b; next = next b; text = text b })) probes.old.items) }
    ensures some_noted { AllZip (HasSeenSome O.after (O.taken sink.old) (O.taken sink.new)
        (step_lines c.now (shown_by (F.rows fields.old) (F.numbers fields.old)) step))
        (map (λ b. record { state = state b; next = next b; text = text b }) probes.old.items)
        (map (λ b. record { state = state b; next = next b; text = text b }) probes.new.items) }
    ensures same_count { vec_len probes.new ≡ vec_len probes.old }
    ensures same_rows { F.rows fields.new ≡ F.rows fields.old }
    ensures same_numbers { F.numbers fields.new ≡ F.numbers fields.old }
{
    bounds(c);
    let mut buffers = Buffers::new(alloc);
    show_step(c.problem(), step, &mut buffers, fields, sink, probes)
}
