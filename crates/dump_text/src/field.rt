//! A field of a kept variable: its header, and its rows.
ghost use Rattle.std.specs.Prelude.{◌≡◌, ◌<◌, ◌∷◌, [], map, length, IfOk, IsSome};
ghost use Rattle.uts_geom.specs.Spans.{IsNearSpan};
ghost use Rattle.uts_model.specs.Dump.{field_line, field_rows, name_text, row_line};
ghost use Rattle.dump_text.specs.Fields.{field_at, kept_row};
ghost use Rattle.dump_text.specs.Lines.{field_lines, line_of};
ghost use Rattle.dump_text.specs.Showing.{CallShows, Sees};
ghost use Rattle.dump_text.specs.Supplies.{HasField, shown_by};
ghost use Rattle.dump_text.specs.Writing.{Writes};

use crate::Rows;
use crate::buffers::Buffers;
use crate::fault::RunFault;
use crate::lines::{put_field_line, put_row_line, write_line};
use crate::noting::note_all;
use crate::place::Place;
use probes::{NoMemory, Numbers, Probe, Row};
use problem_types::Problem;
use uts_geom::rows;
use uts_io::Sink;

/// A kept name at a step.
#[derive(Clone, Copy)]
pub(crate) struct Kept<'a> {
    pub(crate) problem: &'a Problem,
    pub(crate) step: u32,
    /// The place of its `keep` line among these lines.
    pub(crate) keep: u32,
    pub(crate) name: u32,
}

/// The row at y and z, with its numbers in this memory.
fn row_at<F: Rows>(
    kept: &Kept,
    place: Place,
    at: (i64, i64),
    fields: &mut F,
    mut numbers: Vec<i64>,
) -> Result<Row, NoMemory>
    requires { IsSome (F.rows fields.old kept.now.name place.material place.level at.0 at.1) }
    ensures row { IfOk result (λ row. row ≡ kept_row (shown_by (F.rows fields.old) (F.numbers fields.old)) kept.now place at) }
    ensures same_rows { F.rows fields.new ≡ F.rows fields.old }
    ensures same_numbers { F.numbers fields.new ≡ F.numbers fields.old }
{
    let (y, z) = at;
    fields.row(kept.name, place.material, place.level, y, z, &mut numbers)?;
    Ok(Row {
        step: kept.step,
        keep: kept.keep,
        material: place.material,
        level: place.level,
        y,
        z,
        values: Numbers::from_vec(numbers),
    })
}

/// Hands the line of a row to the sink, and then has each probe note the row.
fn show_row<O: Sink>(
    row: &Row,
    line: &mut Vec<u8>,
    sink: &mut O,
    probes: &mut Vec<Box<dyn Probe>>,
) -> Result<(), RunFault>
    ensures written { Writes O.after (O.taken sink.old) (O.taken sink.new) (O.faults sink.old) (O.faults sink.new) result (row_line row.now) }
    ensures seen { Sees O.after (O.taken sink.old) (O.taken sink.new) (map (λ b. record { state = state b; next = next b; text = text b }) probes.old.items)
        (map (λ b. record { state = state b; next = next b; text = text b }) probes.new.items) result (line_of row.now ∷ []) }
{
    put_row_line(line, row)?;
    write_line(sink, line)?;
    note_all(probes, row)?;
    Ok(())
}

/// Shows the row at y and z.
fn show_row_at<O: Sink, F: Rows>(
    kept: &Kept,
    place: Place,
    at: (i64, i64),
    buffers: &mut Buffers,
    fields: &mut F,
    sink: &mut O,
    probes: &mut Vec<Box<dyn Probe>>,
) -> Result<(), RunFault>
    requires { IsSome (F.rows fields.old kept.now.name place.material place.level at.0 at.1) }
    ensures { let row = kept_row (shown_by (F.rows fields.old) (F.numbers fields.old)) kept.now place at in
        CallShows O.after O.taken O.faults F.rows F.numbers sink.old sink.new fields.old fields.new probes.old.items probes.new.items
        (λ b. record { state = state b; next = next b; text = text b })
        result (line_of row ∷ []) }
{
    let row = row_at(kept, place, at, fields, buffers.take_numbers())?;
    show_row(&row, &mut buffers.line, sink, probes)?;
    let Row { values, .. } = row;
    buffers.numbers = values.into_vec();
    Ok(())
}

/// Shows all rows, z outermost, then y.
fn show_rows<O: Sink, F: Rows>(
    kept: &Kept,
    place: Place,
    buffers: &mut Buffers,
    fields: &mut F,
    sink: &mut O,
    probes: &mut Vec<Box<dyn Probe>>,
) -> Result<(), RunFault>
    requires near { IsNearSpan place.span }
    requires has { HasField (F.rows fields.old) kept.now.name (field_at place) }
    ensures { let rows = field_rows (shown_by (F.rows fields.old) (F.numbers fields.old)) kept.now.step kept.now.keep kept.now.name (field_at place) in
        CallShows O.after O.taken O.faults F.rows F.numbers sink.old sink.new fields.old fields.new probes.old.items probes.new.items
        (λ b. record { state = state b; next = next b; text = text b })
        result (map line_of rows) }
{
    for at in rows(place.span) {
        show_row_at(kept, place, at, buffers, fields, sink, probes)?;
    }
    Ok(())
}

/// The bytes of a name.
pub(crate) fn name_of(problem: &Problem, name: u32) -> &[u8]
    requires { name < length problem.now.names }
    ensures { result.now ≡ name_text problem.now name }
{
    problem.names.as_slice()[name as usize].bytes()
}

/// Hands the header of a field to the sink.
fn write_header<O: Sink>(
    kept: &Kept,
    place: Place,
    line: &mut Vec<u8>,
    sink: &mut O,
) -> Result<(), RunFault>
    requires { kept.now.name < length kept.now.problem.now.names }
    ensures { Writes O.after (O.taken sink.old) (O.taken sink.new) (O.faults sink.old) (O.faults sink.new) result
        (field_line (name_text kept.now.problem.now kept.now.name) (field_at place)) }
{
    put_field_line(line, name_of(kept.problem, kept.name), place)?;
    write_line(sink, line)
}

/// Shows a field: its header, and then its rows.
pub(crate) fn show_field<O: Sink, F: Rows>(
    kept: &Kept,
    place: Place,
    buffers: &mut Buffers,
    fields: &mut F,
    sink: &mut O,
    probes: &mut Vec<Box<dyn Probe>>,
) -> Result<(), RunFault>
    requires named { kept.now.name < length kept.now.problem.now.names }
    requires near { IsNearSpan place.span }
    requires has { HasField (F.rows fields.old) kept.now.name (field_at place) }
    ensures { let shown = shown_by (F.rows fields.old) (F.numbers fields.old) in let field = field_at place in
        CallShows O.after O.taken O.faults F.rows F.numbers sink.old sink.new fields.old fields.new probes.old.items probes.new.items
        (λ b. record { state = state b; next = next b; text = text b })
        result (field_lines kept.now.problem.now shown kept.now.step kept.now.keep kept.now.name field) }
{
    write_header(kept, place, &mut buffers.line, sink)?;
    show_rows(kept, place, buffers, fields, sink, probes)
}
