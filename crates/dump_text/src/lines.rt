//! The lines of a dump. Each is put together in memory, and handed to the sink by one call.
ghost use Rattle.std.specs.Prelude.{◌≡◌, ◌++◌, ◌∷◌, [], ℤ, pos, List, length, OnOk};
ghost use Rattle.std.specs.Fmt.{signed_decimal};
ghost use Rattle.uts_model.specs.Dump.{corner_numbers, field_line, number_line, row_line, row_text, spaced_numbers, step_line};
ghost use Rattle.dump_text.specs.Fields.{field_at};
ghost use Rattle.dump_text.specs.Showing.{probe_line};
ghost use Rattle.dump_text.specs.Writing.{Writes};

use crate::fault::RunFault;
use crate::place::Place;
use probes::Row;
use uts_io::{Sink, write_all};
use uts_num::{NoMemory, put_i64};

/// Hands one line to the sink.
pub(crate) fn write_line<O: Sink>(sink: &mut O, line: &[u8]) -> Result<(), RunFault>
    ensures { Writes O.after (O.taken sink.old) (O.taken sink.new) (O.faults sink.old) (O.faults sink.new) result line.now }
{
    write_all(sink, line)?;
    Ok(())
}

/// Makes `line` the line that begins a step.
pub(crate) fn put_step_line(line: &mut Vec<u8>, step: u32) -> Result<(), NoMemory>
    ensures { OnOk result (line.new.items ≡ step_line step) }
{
    line.clear();
    line.extend_from_slice(b"step ")?;
    put_i64(line, i64::from(step))?;
    line.push(b'\n')?;
    Ok(())
}

/// Puts one number at the end of a line, after a space.
fn put_after_space(line: &mut Vec<u8>, number: i64) -> Result<(), NoMemory>
    ensures { OnOk result (line.new.items ≡ line.old.items ++ 32 ∷ signed_decimal number) }
{
    line.push(b' ')?;
    put_i64(line, number)?;
    Ok(())
}

/// Puts numbers at the end of a line, each after a space.
fn put_spaced(line: &mut Vec<u8>, numbers: &[i64]) -> Result<(), NoMemory>
    ensures { OnOk result (line.new.items ≡ line.old.items ++ spaced_numbers numbers.now) }
{
    for number in numbers {
        put_after_space(line, *number)?;
    }
    Ok(())
}

/// The material, the level and the bounds of a field, as its header has them.
fn header_numbers(place: Place) -> [i64; 8]
    ensures { result ≡ pos place.material ∷ pos place.level ∷ (corner_numbers place.span.lo ++ corner_numbers place.span.hi) }
{
    let (low, high) = (place.span.lo, place.span.hi);
    [
        i64::from(place.material),
        i64::from(place.level),
        low.x,
        low.y,
        low.z,
        high.x,
        high.y,
        high.z,
    ]
}

/// Makes `line` the header of a field of the variable with this name.
pub(crate) fn put_field_line(line: &mut Vec<u8>, name: &[u8], place: Place) -> Result<(), NoMemory>
    ensures { OnOk result (line.new.items ≡ field_line name.now (field_at place)) }
{
    line.clear();
    line.extend_from_slice(b"field ")?;
    line.extend_from_slice(name)?;
    put_spaced(line, &header_numbers(place))?;
    line.push(b'\n')?;
    Ok(())
}

/// Puts one more number at the end of a row's text, which has `count` numbers.
fn put_next(line: &mut Vec<u8>, count: usize, number: i64) -> Result<(), NoMemory>
    ensures { OnOk result ((row : List ℤ) → length row ≡ count → line.old.items ≡ row_text row
        → line.new.items ≡ row_text (row ++ number ∷ [])) }
{
    if count > 0 {
        line.push(b' ')?;
    }
    put_i64(line, number)?;
    Ok(())
}

/// Makes `line` the text of a row.
fn put_row(line: &mut Vec<u8>, numbers: &[i64]) -> Result<(), NoMemory>
    ensures { OnOk result (line.new.items ≡ row_text numbers.now) }
{
    line.clear();
    for (count, number) in numbers.iter().enumerate() {
        put_next(line, count, *number)?;
    }
    Ok(())
}

/// Makes `line` the line of a row.
pub(crate) fn put_row_line(line: &mut Vec<u8>, row: &Row) -> Result<(), NoMemory>
    ensures { OnOk result (line.new.items ≡ row_line row.now) }
{
    put_row(line, row.values.as_slice())?;
    line.push(b'\n')?;
    Ok(())
}

/// Makes `line` the line of the reduction with this name.
pub(crate) fn put_number_line(line: &mut Vec<u8>, name: &[u8], number: i64) -> Result<(), NoMemory>
    ensures { OnOk result (line.new.items ≡ number_line name.now number) }
{
    line.clear();
    line.extend_from_slice(b"number ")?;
    line.extend_from_slice(name)?;
    put_after_space(line, number)?;
    line.push(b'\n')?;
    Ok(())
}

/// Makes `line` the line of a probe that says this text.
pub(crate) fn put_probe_line(line: &mut Vec<u8>, text: &[u8]) -> Result<(), NoMemory>
    ensures { OnOk result (line.new.items ≡ probe_line text.now) }
{
    line.clear();
    line.extend_from_slice(b"# ")?;
    line.extend_from_slice(text)?;
    line.push(b'\n')?;
    Ok(())
}
