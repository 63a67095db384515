//! Values of slots put into the windows and numbers of a detailed task.
ghost use Rattle.std.specs.Prelude.{◌≡◌, ℕ, ◌+◌, Some, map, slice_get};
ghost use Rattle.graph_types.specs.Content.{FitsSlot};
ghost use Rattle.graph_types.specs.Graph.{reads_of};
ghost use Rattle.slot_contents.specs.Contents.{contents_of};
ghost use Rattle.slot_contents.specs.Values.{Fits};
ghost use Rattle.run_task.specs.Gathered.{HasGathered};
ghost use Rattle.run_task.specs.Putting.{is_reduction_in, is_slot_of, is_variable_in, level_seen, with_number, with_part, AreWithField, AreWithValue, IsWithField};

use crate::job::StepJob;
use crate::places::slot_at;
use crate::work::{CombiningWork, Work};
use field_box::{Field, Value};
use graph_compiler::{Slot, SlotKind};
use kernel_ast::{How, Store};
use kernel_eval::{Given, Part, Windows};
use reductions::combine;
use slot_contents::{numbers_hold_what_stood, slots_hold_what_stood};
use uts_geom::spans_hold_their_indexes;

/// Whether a slot of this kind holds a variable as it stands in a store.
fn holds_variable(kind: SlotKind, store: Store) -> bool
    ensures { result ≡ is_variable_in store kind }
{
    match (store, kind) {
        (Store::Old, SlotKind::Old) | (Store::New, SlotKind::New) => true,
        _ => false,
    }
}

/// Whether a slot of this kind holds a reduction as it stands in a store.
fn holds_reduction(kind: SlotKind, store: Store) -> bool
    ensures { result ≡ is_reduction_in store kind }
{
    match (store, kind) {
        (Store::Old, SlotKind::OldNumber) | (Store::New, SlotKind::Number) => true,
        _ => false,
    }
}

/// The level of a part, by the level of the task.
fn level_of(how: How, level: u32) -> u64
    ensures { result ≡ level_seen how level }
{
    let level = u64::from(level);
    match how {
        How::Same => level,
        How::Coarse => level.saturating_sub(1),
        How::FineSum | How::FineMin | How::FineMax | How::FineCount => level + 1,
    }
}

/// Whether a slot that the task reads is of the part's variable, on the part's level.
fn is_of(slot: Slot, part: &Part, level: u32) -> bool
    ensures { result ≡ is_slot_of slot part.now level }
{
    holds_variable(slot.kind, part.store)
        && slot.name == part.name
        && u64::from(slot.level) == level_of(part.how, level)
}

/// Puts the field of a slot into a part, if it is of its variable.
fn put_into(part: &mut Part, slot: Slot, field: &Field, level: u32)
    ensures { IsWithField slot field.now level part.old part.new }
{
    if is_of(slot, part, level) {
        part.window.put_part(field);
    }
}

/// Puts the field of a slot into the parts that are of its variable.
fn put_field(parts: &mut Vec<Part>, slot: Slot, field: &Field, level: u32)
    ensures { AreWithField slot field.now level parts.old.items parts.new.items }
{
    for part in parts.iter_mut() {
        put_into(part, slot, field, level);
    }
}

/// Gives a reduction its number, if the slot is of it.
fn give_to(given: &mut Given, slot: Slot, n: i64)
    ensures { given.new ≡ with_number slot n given.old }
{
    if holds_reduction(slot.kind, given.store) && slot.name == given.name {
        given.number = n;
    }
}

/// Gives the reductions of which the slot is their number.
fn give_number(numbers: &mut Vec<Given>, slot: Slot, n: i64)
    ensures { numbers.new.items ≡ map (with_number slot n) numbers.old.items }
{
    for given in numbers.iter_mut() {
        give_to(given, slot, n);
    }
}

/// Puts the value of a slot where it belongs in what the task sees.
fn put_value(windows: &mut Windows, slot: Slot, value: &Value)
    ensures { AreWithValue slot value.now windows.old windows.new }
{
    match value {
        Value::Grid(field) => put_field(&mut windows.parts, slot, field, windows.level),
        Value::Number(n) => give_number(&mut windows.numbers, slot, *n),
    }
}

/// Combines the value of a part with those before it.
fn combine_part(work: &mut CombiningWork, value: &Value)
    ensures { work.new ≡ with_part work.old value.now }
{
    if let Value::Number(n) = value {
        work.number = combine(work.fold, work.number, *n);
    }
}

/// Gathers the value of the task's read number `k`. It takes no memory.
pub(crate) fn gather(job: &StepJob, task: u32, k: usize, value: &Value, work: &mut Work)
    requires filled { HasGathered job.now.checked.now job.now.step task k work.old }
    requires fits { (slot : ℕ) × (slice_get (reads_of job.now.plan.now.graph task) k ≡ Some slot)
        × FitsSlot Fits (contents_of job.now.checked.now job.now.step) slot value.now }
    ensures { HasGathered job.now.checked.now job.now.step task (k + 1) work.new }
{
    spans_hold_their_indexes();
    slots_hold_what_stood();
    numbers_hold_what_stood();
    match work {
        Work::Patch(on_patch) => {
            put_value(&mut on_patch.windows, slot_at(job, task, k), value);
        }
        Work::Combining(parts) => combine_part(parts, value),
    }
}
