//! The rules of slots.
ghost use Rattle.std.specs.Prelude.{◌≡◌, ◌≤◌, ◌<◌, ◌+◌, ◌↔◌, IfOk, IsTrue};
ghost use Rattle.std.specs.Prelude.{cond, slice_index_or, false};
ghost use Rattle.graph_types.specs.Graph.{AreSlotsValid, is_kept, readers, writers};
ghost use Rattle.graph_types.specs.Parts.{AreCounts, HasLists, IsPlaced, IsSlotValid};

use crate::tables::counts;
use crate::{Graph, NoMemory};
use std::alloc::Global;

/// Whether an old slot, or another one, has such readers and writers, and may be kept.
fn is_placed(is_old: bool, readers: u32, writers: u32, kept: bool) -> bool
    ensures { IsTrue result ↔ IsPlaced is_old readers writers kept }
{
    if is_old {
        writers == 0 && readers >= 1 && !kept
    } else {
        writers == 1
    }
}

fn is_kept(g: &Graph, slot: u32) -> bool
    requires lists { HasLists g.now }
    requires slot { slot < g.now.slots }
    ensures { result ≡ is_kept g.now slot }
{
    g.kept.as_slice()[slot as usize]
}

/// How many uses a slot has.
pub(crate) fn use_count(read: u32, written: u32, kept: bool) -> u32
    requires read { read ≤ 65536 }
    requires written { written ≤ 65536 }
    ensures { result ≡ read + (written + cond kept 1 0) }
{
    read + written + u32::from(kept)
}

/// Whether so many uses of the slot are stated.
fn has_uses(g: &Graph, slot: u32, uses: u32) -> bool
    requires lists { HasLists g.now }
    requires slot { slot < g.now.slots }
    ensures { IsTrue result ↔ (slice_index_or g.now.uses slot 0 ≡ uses) }
{
    g.uses.as_slice()[slot as usize] == uses
}

/// Whether the slot keeps its rules.
fn is_slot_valid(g: &Graph, slot: u32, read: u32, written: u32) -> bool
    requires lists { HasLists g.now }
    requires slot { slot < g.now.slots }
    requires read { read ≡ readers g.now slot }
    requires written { written ≡ writers g.now slot }
    ensures { IsTrue result ↔ IsSlotValid g.now slot }
{
    let kept = is_kept(g, slot);
    if !is_placed(slot < g.old, read, written, kept) {
        return false;
    }
    let uses = use_count(read, written, kept);
    has_uses(g, slot, uses)
}

fn are_all_valid(g: &Graph, readers: &[u32], writers: &[u32]) -> bool
    requires lists { HasLists g.now }
    requires readers { AreCounts g.now.slots g.now.reads readers.now }
    requires writers { AreCounts g.now.slots g.now.writes writers.now }
    ensures { IsTrue result ↔ AreSlotsValid g.now }
{
    for slot in 0..g.slots {
        let i = slot as usize;
        if !is_slot_valid(g, slot, readers[i], writers[i]) {
            return false;
        }
    }
    true
}

/// Whether each slot keeps its rules.
pub(crate) fn are_slots_valid(alloc: Global, g: &Graph) -> Result<bool, NoMemory>
    requires { HasLists g.now }
    ensures { IfOk result (λ yes. IsTrue yes ↔ AreSlotsValid g.now) }
{
    let readers = counts(alloc, g.slots, g.reads.as_slice())?;
    let writers = counts(alloc, g.slots, g.writes.as_slice())?;
    Ok(are_all_valid(g, &readers, &writers))
}
