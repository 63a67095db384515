//! What steps leave, compared with what plain recursion finds.
use crate::problems::{DOUBLING, FINE_SUMS, MODIFY, REDUCTIONS};
use crate::runs::{step_plan, values};
use field_box::{Field, Value};
use graph_compiler::{Slot, SlotKind};
use graph_tests::checked;
use graph_types::NoMemory;
use problem_types::Problem;
use std::alloc::Global;
use std::test::Fail;
use task_check::Checked;
use uts_geom::{Index, contains, rows};
use uts_model::{at_index, reduction_at_end};

/// A step of a problem.
#[derive(Clone, Copy)]
struct Moment<'a> {
    checked: &'a Checked,
    step: u32,
}

/// A variable, by its place among the declarations, on a material and a level.
#[derive(Clone, Copy)]
struct Place {
    var: u32,
    material: u32,
    level: u32,
}

/// The number of a variable at an index.
fn number_there(m: Moment, place: Place, i: Index) -> Option<i64> {
    let p = m.checked.problem();
    if m.step > 3 || u64::from(m.step) > p.steps.value || place.var as usize >= p.vars.len() {
        return None;
    }
    if u64::from(place.material) >= p.materials.value || place.level as usize >= p.levels.len() {
        return None;
    }
    Some(at_index(m.checked, m.step, place.var, place.material, place.level, i))
}

/// The number of a reduction.
fn reduction_there(m: Moment, name: u32) -> Option<i64> {
    if m.step > 3 || u64::from(m.step) > m.checked.problem().steps.value {
        return None;
    }
    Some(reduction_at_end(m.checked, m.step, name))
}

/// Whether the field has the number that is found at the index.
fn is_found_at(m: Moment, place: Place, field: &Field, i: Index) -> bool {
    contains(field.span(), i) && number_there(m, place, i) == Some(field.get(i))
}

fn is_row_found(m: Moment, place: Place, field: &Field, y: i64, z: i64) -> bool {
    let span = field.span();
    for x in span.lo.x..span.hi.x {
        if !is_found_at(m, place, field, Index { x, y, z }) {
            return false;
        }
    }
    true
}

fn is_field_found(m: Moment, place: Place, field: &Field) -> bool {
    for (y, z) in rows(field.span()) {
        if !is_row_found(m, place, field, y, z) {
            return false;
        }
    }
    true
}

fn place_of(p: &Problem, slot: Slot) -> Option<Place> {
    let var = p.vars.as_slice().iter().position(|v| v.name == slot.name)?;
    Some(Place {
        var: u32::try_from(var).ok()?,
        material: slot.material,
        level: slot.level,
    })
}

/// Whether a slot has what is found: at each index of its field, or its one number.
fn is_found(m: Moment, slot: Slot, value: &Value) -> bool {
    match value {
        Value::Grid(field) => match place_of(m.checked.problem(), slot) {
            Some(place) => is_field_found(m, place, field),
            None => false,
        },
        Value::Number(n) => reduction_there(m, slot.name) == Some(*n),
    }
}

/// Whether the step leaves what the slot holds: the last version of a variable, or a reduction.
fn is_left(slots: &[Slot], slot: Slot) -> bool {
    match slot.kind {
        SlotKind::New => !slots.iter().any(|s| is_later(*s, slot)),
        SlotKind::Number => true,
        SlotKind::Old | SlotKind::Part | SlotKind::OldNumber => false,
    }
}

/// Whether the first slot has a later version of what the second one has.
fn is_later(s: Slot, slot: Slot) -> bool {
    s.version > slot.version
        && Slot {
            version: slot.version,
            ..s
        } == slot
}

/// Whether all slots that the step leaves have what is found.
fn are_found(m: Moment, slots: &[Slot], places: &[Option<Value>]) -> bool {
    for (slot, place) in slots.iter().zip(places.iter()) {
        if is_left(slots, *slot)
            && !place
                .as_ref()
                .is_some_and(|value| is_found(m, *slot, value))
        {
            return false;
        }
    }
    true
}

/// How many slots a step leaves, where all of them have what is found.
fn slots_found(alloc: Global, c: &Checked, step: u32) -> Result<Option<usize>, NoMemory> {
    let Some(plan) = step_plan(alloc, c, step)? else {
        return Ok(None);
    };
    let places = values(alloc, c, &plan, step)?;
    let slots = plan.slots.as_slice();
    let m = Moment { checked: c, step };
    if places.len() != slots.len() || !are_found(m, slots, places.as_slice()) {
        return Ok(None);
    }
    Ok(Some(slots.iter().filter(|s| is_left(slots, **s)).count()))
}

/// The same of a step of a text.
fn found(alloc: Global, text: &str, step: u32) -> Result<Option<usize>, Fail> {
    let c = checked(alloc, text)?;
    Ok(slots_found(alloc, &c, step)?)
}

#[test]
fn what_is_modified_is_found(rt: HostRuntime) -> Result<(), Fail> {
    // Three variables on two patches.
    for step in [0, 1] {
        assert_eq!(rt; found(rt.alloc(), MODIFY, step)?, Some(6));
    }
    Ok(())
}

#[test]
fn sums_of_finer_numbers_are_found(rt: HostRuntime) -> Result<(), Fail> {
    // `u` on both levels, `v` and `w` on one; then all three on one level.
    for (step, fields) in [(0, 4), (1, 3)] {
        assert_eq!(rt; found(rt.alloc(), FINE_SUMS, step)?, Some(fields));
    }
    Ok(())
}

#[test]
fn reductions_are_found(rt: HostRuntime) -> Result<(), Fail> {
    // `u` on two levels and two materials, then on one of each; and the reduction.
    for (step, slots) in [(0, 5), (1, 2)] {
        assert_eq!(rt; found(rt.alloc(), REDUCTIONS, step)?, Some(slots));
    }
    Ok(())
}

#[test]
fn what_each_step_doubles_is_found(rt: HostRuntime) -> Result<(), Fail> {
    for step in [0, 1, 2, 3] {
        assert_eq!(rt; found(rt.alloc(), DOUBLING, step)?, Some(3));
    }
    Ok(())
}
