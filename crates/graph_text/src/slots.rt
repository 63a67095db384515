//! The lines of slots.
ghost use Rattle.std.specs.Prelude.{◌≡◌, ◌++◌, ◌<◌, ◌^◌, slice_index_or, OnOk, if◌then◌else◌};
ghost use Rattle.graph_types.specs.Graph.{is_kept};
ghost use Rattle.graph_text.specs.Listing.{named_text, place_text, placed_text, slot_line};

use crate::NoMemory;
use crate::putting::{kind_word, put_labelled, put_labelled_long, put_name};
use graph_compiler::{Slot, SlotKind};
use graph_types::Graph;
use problem_types::Problem;

/// How many uses the slot of this number has.
fn uses_of(g: &Graph, number: usize) -> u32
    ensures { result ≡ slice_index_or g.now.uses number 0 }
{
    g.uses.get(number).copied().unwrap_or(0)
}

fn is_kept(g: &Graph, number: usize) -> bool
    ensures { result ≡ is_kept g.now number }
{
    g.kept.get(number).copied().unwrap_or(false)
}

/// 1 where the slot of this number is kept, else 0.
fn kept_mark(g: &Graph, number: usize) -> u32
    ensures { result ≡ (if is_kept g.now number then 1 else 0) }
{
    u32::from(is_kept(g, number))
}

/// Puts where the slot lies, and its version.
fn put_placed(line: &mut Vec<u8>, s: Slot) -> Result<(), NoMemory>
    ensures { OnOk result (line.new.items ≡ line.old.items ++ placed_text s) }
{
    put_labelled(line, b" material ", s.material)?;
    put_labelled(line, b" level ", s.level)?;
    put_labelled(line, b" patch ", s.patch)?;
    put_labelled(line, b" version ", s.version)
}

/// Puts where the slot lies, and its version, unless it holds a whole reduction.
fn put_place(line: &mut Vec<u8>, s: Slot) -> Result<(), NoMemory>
    ensures { OnOk result (line.new.items ≡ line.old.items ++ place_text s.kind s) }
{
    match s.kind {
        SlotKind::Old | SlotKind::New | SlotKind::Part => put_placed(line, s),
        SlotKind::Number | SlotKind::OldNumber => Ok(()),
    }
}

/// Puts the kind of the slot, and its name.
fn put_named(line: &mut Vec<u8>, p: &Problem, s: Slot) -> Result<(), NoMemory>
    ensures { OnOk result (line.new.items ≡ line.old.items ++ named_text p.now s) }
{
    line.extend_from_slice(kind_word(s.kind))?;
    line.push(b' ')?;
    put_name(line, p, s.name)
}

/// Makes `line` the line of the slot of this number.
pub(crate) fn put_slot_line(
    line: &mut Vec<u8>,
    p: &Problem,
    g: &Graph,
    number: usize,
    s: Slot,
) -> Result<(), NoMemory>
    requires { number < 2 ^ 63 }
    ensures { OnOk result (line.new.items ≡ slot_line p.now g.now number s) }
{
    line.clear();
    put_labelled_long(line, b"slot ", number as u64)?;
    line.push(b' ')?;
    put_named(line, p, s)?;
    put_place(line, s)?;
    put_labelled(line, b" uses ", uses_of(g, number))?;
    put_labelled(line, b" kept ", kept_mark(g, number))?;
    line.push(b'\n')?;
    Ok(())
}
