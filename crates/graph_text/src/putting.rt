//! Words, numbers and names put at the end of a line.
ghost use Rattle.std.specs.Prelude.{◌≡◌, ◌++◌, ◌<◌, ◌^◌, OnOk};
ghost use Rattle.uts_model.specs.Dump.{name_text};
ghost use Rattle.graph_text.specs.Listing.{kind_word, labelled, labelled_all, list_word};

use crate::NoMemory;
use graph_compiler::{ListKind, SlotKind};
use problem_types::Problem;
use uts_num::put_i64;

pub(crate) fn list_word(list: ListKind) -> &'static [u8]
    ensures { result.now ≡ list_word list }
{
    match list {
        ListKind::Init => b"init",
        ListKind::Timestep => b"timestep",
    }
}

pub(crate) fn kind_word(kind: SlotKind) -> &'static [u8]
    ensures { result.now ≡ kind_word kind }
{
    match kind {
        SlotKind::Old => b"old",
        SlotKind::New => b"new",
        SlotKind::Part => b"part",
        SlotKind::Number => b"number",
        SlotKind::OldNumber => b"oldnumber",
    }
}

/// Puts a label, and behind it a number below 2^63.
pub(crate) fn put_labelled_long(
    line: &mut Vec<u8>,
    label: &[u8],
    number: u64,
) -> Result<(), NoMemory>
    requires { number < 2 ^ 63 }
    ensures { OnOk result (line.new.items ≡ line.old.items ++ labelled label.now number) }
{
    line.extend_from_slice(label)?;
    put_i64(line, number as i64)?;
    Ok(())
}

/// Puts a label, and behind it a number.
pub(crate) fn put_labelled(line: &mut Vec<u8>, label: &[u8], number: u32) -> Result<(), NoMemory>
    ensures { OnOk result (line.new.items ≡ line.old.items ++ labelled label.now number) }
{
    put_labelled_long(line, label, u64::from(number))
}

/// Puts a label, and behind it tasks or slots by their numbers.
pub(crate) fn put_numbers(line: &mut Vec<u8>, label: &[u8], numbers: &[u32]) -> Result<(), NoMemory>
    ensures { OnOk result (line.new.items ≡ line.old.items ++ labelled_all label.now numbers.now) }
{
    line.extend_from_slice(label)?;
    for number in numbers {
        put_labelled(line, b" ", *number)?;
    }
    Ok(())
}

/// Puts the word of a name.
pub(crate) fn put_name(line: &mut Vec<u8>, p: &Problem, name: u32) -> Result<(), NoMemory>
    ensures { OnOk result (line.new.items ≡ line.old.items ++ name_text p.now name) }
{
    if let Some(word) = p.names.get(name as usize) {
        line.extend_from_slice(word.bytes())?;
    }
    Ok(())
}
