//! What stands for a kept name: the fields of a variable, or the number of a reduction.
ghost use Rattle.std.specs.Prelude.{◌≡◌, ◌<◌, ◌∷◌, [], length, All, IsTrue, IsFalse, IsSome, IfSome, MatchOption, Some, slice_get};
ghost use Rattle.std.specs.Option.{is_some};
ghost use Rattle.uts_geom.specs.Spans.{IsNearSpan};
ghost use Rattle.problem_types.specs.Lists.{task_list, centring_of, variable_named};
ghost use Rattle.uts_model.specs.Dump.{name_text, number_line};
ghost use Rattle.dump_text.specs.Fields.{IsKept, all_fields, field_at, kept_lines, level_fields, lines_of_fields, material_fields};
ghost use Rattle.dump_text.specs.Showing.{CallShows};
ghost use Rattle.dump_text.specs.Supplies.{HasField, shown_by};
ghost use Rattle.dump_text.specs.Writing.{Writes};

use crate::Rows;
use crate::buffers::Buffers;
use crate::fault::RunFault;
use crate::field::{Kept, name_of, show_field};
use crate::lines::{put_number_line, write_line};
use crate::place::Place;
use patch_regions::index_space;
use probes::Probe;
use problem_lookup::{centring_of, task_list};
use problem_types::{Level, Problem};
use task_rules::{computes, is_variable};
use uts_io::Sink;

/// The level of this number.
fn level_at(problem: &Problem, level: u32) -> &Level
    requires { level < length problem.now.levels }
    ensures { slice_get problem.now.levels level ≡ Some result.now }
{
    &problem.levels.as_slice()[level as usize]
}

/// Where the field of a kept variable lies on a material and a level, where the step's list computes it there.
fn place_on(kept: &Kept, material: u32, level: u32) -> Option<Place>
    requires kept { IsKept kept.now }
    requires level { level < length kept.now.problem.now.levels }
    ensures field { MatchOption result (level_fields kept.now material level ≡ [])
        (λ place. level_fields kept.now material level ≡ field_at place ∷ []) }
    ensures near { IfSome result (λ place. IsNearSpan place.span) }
{
    let problem = kept.problem;
    let tasks = task_list(problem, kept.step);
    if !computes(tasks, kept.name, u64::from(material), u64::from(level)) {
        return None;
    }
    let centring = centring_of(problem, kept.name);
    let span = index_space(level_at(problem, level), centring);
    Some(Place {
        material,
        level,
        span,
    })
}

/// Shows the field of a kept variable on a material and a level, where it has one there.
fn show_level<O: Sink, F: Rows>(
    kept: &Kept,
    material: u32,
    level: u32,
    buffers: &mut Buffers,
    fields: &mut F,
    sink: &mut O,
    probes: &mut Vec<Box<dyn Probe>>,
) -> Result<(), RunFault>
    requires kept { IsKept kept.now }
    requires level { level < length kept.now.problem.now.levels }
    requires has { All (HasField (F.rows fields.old) kept.now.name) (level_fields kept.now material level) }
    ensures { let shown = shown_by (F.rows fields.old) (F.numbers fields.old) in let all = level_fields kept.now material level in
        CallShows O.after O.taken O.faults F.rows F.numbers sink.old sink.new fields.old fields.new probes.old.items probes.new.items
        (λ b. record { state = state b; next = next b; text = text b })
        result (lines_of_fields shown kept.now all) }
{
    match place_on(kept, material, level) {
        Some(place) => show_field(kept, place, buffers, fields, sink, probes),
        None => Ok(()),
    }
}

/// Shows the fields of a kept variable on a material, by ascending level.
fn show_material<O: Sink, F: Rows>(
    kept: &Kept,
    material: u32,
    buffers: &mut Buffers,
    fields: &mut F,
    sink: &mut O,
    probes: &mut Vec<Box<dyn Probe>>,
) -> Result<(), RunFault>
    requires kept { IsKept kept.now }
    requires has { All (HasField (F.rows fields.old) kept.now.name) (material_fields kept.now material) }
    ensures { let shown = shown_by (F.rows fields.old) (F.numbers fields.old) in let all = material_fields kept.now material in
        CallShows O.after O.taken O.faults F.rows F.numbers sink.old sink.new fields.old fields.new probes.old.items probes.new.items
        (λ b. record { state = state b; next = next b; text = text b })
        result (lines_of_fields shown kept.now all) }
{
    for level in 0..kept.problem.levels.len() as u32 {
        show_level(kept, material, level, buffers, fields, sink, probes)?;
    }
    Ok(())
}

/// Shows the fields of a kept variable, by ascending material.
fn show_variable<O: Sink, F: Rows>(
    kept: &Kept,
    buffers: &mut Buffers,
    fields: &mut F,
    sink: &mut O,
    probes: &mut Vec<Box<dyn Probe>>,
) -> Result<(), RunFault>
    requires kept { IsKept kept.now }
    requires has { All (HasField (F.rows fields.old) kept.now.name) (all_fields kept.now) }
    ensures { let shown = shown_by (F.rows fields.old) (F.numbers fields.old) in let all = all_fields kept.now in
        CallShows O.after O.taken O.faults F.rows F.numbers sink.old sink.new fields.old fields.new probes.old.items probes.new.items
        (λ b. record { state = state b; next = next b; text = text b })
        result (lines_of_fields shown kept.now all) }
{
    for material in 0..kept.problem.materials.value as u32 {
        show_material(kept, material, buffers, fields, sink, probes)?;
    }
    Ok(())
}

/// Hands the line of a reduction to the sink.
fn write_number<O: Sink, F: Rows>(
    kept: &Kept,
    line: &mut Vec<u8>,
    fields: &F,
    sink: &mut O,
) -> Result<(), RunFault>
    requires kept { IsKept kept.now }
    requires has { IsSome (F.numbers fields.now kept.now.name) }
    ensures { let shown = shown_by (F.rows fields.now) (F.numbers fields.now) in
        Writes O.after (O.taken sink.old) (O.taken sink.new) (O.faults sink.old) (O.faults sink.new) result
        (number_line (name_text kept.now.problem.now kept.now.name) (shown.number kept.now.name)) }
{
    let name = name_of(kept.problem, kept.name);
    put_number_line(line, name, fields.number(kept.name))?;
    write_line(sink, line)
}

/// Shows what stands for a kept name.
pub(crate) fn show_keep<O: Sink, F: Rows>(
    kept: &Kept,
    buffers: &mut Buffers,
    fields: &mut F,
    sink: &mut O,
    probes: &mut Vec<Box<dyn Probe>>,
) -> Result<(), RunFault>
    requires kept { IsKept kept.now }
    requires variable { IsTrue (is_some (variable_named kept.now.problem.now kept.now.name))
        → All (HasField (F.rows fields.old) kept.now.name) (all_fields kept.now) }
    requires reduction { IsFalse (is_some (variable_named kept.now.problem.now kept.now.name))
        → IsSome (F.numbers fields.old kept.now.name) }
    ensures { let shown = shown_by (F.rows fields.old) (F.numbers fields.old) in
        CallShows O.after O.taken O.faults F.rows F.numbers sink.old sink.new fields.old fields.new probes.old.items probes.new.items
        (λ b. record { state = state b; next = next b; text = text b })
        result (kept_lines shown kept.now) }
{
    if is_variable(kept.problem, kept.name) {
        show_variable(kept, buffers, fields, sink, probes)
    } else {
        write_number(kept, &mut buffers.line, fields, sink)
    }
}
