//! The fields that a task gives: each line's, on each level and each material of the task.
ghost use Rattle.std.specs.Prelude.{◌≡◌, ◌<◌, ◌≤◌, ◌++◌, ◌∷◌, [], length, map, All, IfOk, OnOk, if◌then◌else◌};
ghost use Rattle.problem_types.specs.Lists.{is_of_field};
ghost use Rattle.plain_engine.specs.Changes.{written_of};
ghost use Rattle.plain_engine.specs.Moments.{problem_at, field_change_at, line_changes_at, field_changes_at};
ghost use Rattle.plain_engine.specs.Runnable.{IsRunnable, IsRunnableLine};

use crate::kernels::kernel_numbers;
use crate::moment::Moment;
use crate::written::WrittenField;
use problem_lookup::{centring_of, is_of_field};
use problem_types::{Task, Write};
use sqlite_items::Items;
use std::alloc::AllocError;
use task_check::bounds;
use uts_model::space_on;

/// The field that a line gives on a level and a material.
fn written_field(
    moment: &Moment,
    write: &Write,
    level: u32,
    material: u32,
    scratch: &mut [i64],
) -> Result<WrittenField, AllocError>
    requires line { IsRunnableLine (problem_at moment.now) moment.now.places write.now }
    requires level { level < length (problem_at moment.now).levels }
    requires room { moment.now.places ≤ length scratch.old }
    ensures { IfOk result (λ field. field ≡ written_of (problem_at moment.now) (field_change_at moment.now write.now level material)) }
{
    let centring = centring_of(moment.checked.problem(), write.name);
    let span = space_on(moment.checked, level as usize, centring);
    let numbers = kernel_numbers(moment, &write.expr, level, material, span, scratch)?;
    Ok(WrittenField {
        name: write.name,
        material,
        level,
        numbers,
    })
}

/// Puts the fields that a line gives on a level at the end of `fields`.
fn push_materials(
    moment: &Moment,
    task: &Task,
    write: &Write,
    level: u32,
    scratch: &mut [i64],
    fields: &mut Items<WrittenField>,
) -> Result<(), AllocError>
    requires task { IsRunnable (problem_at moment.now) moment.now.places task.now }
    requires line { IsRunnableLine (problem_at moment.now) moment.now.places write.now }
    requires level { level < length (problem_at moment.now).levels }
    requires room { moment.now.places ≤ length scratch.old }
    ensures { OnOk result (fields.new ≡ fields.old
        ++ map (written_of (problem_at moment.now)) (map (field_change_at moment.now write.now level) task.now.materials)) }
{
    bounds(moment.checked);
    for material in task.materials.as_slice() {
        fields.push(written_field(moment, write, level, *material as u32, scratch)?)?;
    }
    Ok(())
}

/// Puts the fields that a line gives on all levels at the end of `fields`.
fn push_levels(
    moment: &Moment,
    task: &Task,
    write: &Write,
    scratch: &mut [i64],
    fields: &mut Items<WrittenField>,
) -> Result<(), AllocError>
    requires task { IsRunnable (problem_at moment.now) moment.now.places task.now }
    requires line { IsRunnableLine (problem_at moment.now) moment.now.places write.now }
    requires room { moment.now.places ≤ length scratch.old }
    ensures { OnOk result (fields.new ≡ fields.old
        ++ map (written_of (problem_at moment.now)) (line_changes_at moment.now task.now write.now)) }
{
    bounds(moment.checked);
    for level in task.levels.as_slice() {
        push_materials(moment, task, write, *level as u32, scratch, fields)?;
    }
    Ok(())
}

/// Puts the fields that a line gives at the end of `fields`, if it computes or modifies.
fn push_line(
    moment: &Moment,
    task: &Task,
    write: &Write,
    scratch: &mut [i64],
    fields: &mut Items<WrittenField>,
) -> Result<(), AllocError>
    requires task { IsRunnable (problem_at moment.now) moment.now.places task.now }
    requires line { IsRunnableLine (problem_at moment.now) moment.now.places write.now }
    requires room { moment.now.places ≤ length scratch.old }
    ensures { OnOk result (fields.new ≡ fields.old ++ map (written_of (problem_at moment.now))
        (if is_of_field write.now.kind then line_changes_at moment.now task.now write.now else [])) }
{
    if is_of_field(write.kind) {
        push_levels(moment, task, write, scratch, fields)
    } else {
        Ok(())
    }
}

/// The fields that a task gives, line by line.
pub(crate) fn written_fields(
    moment: &Moment,
    task: &Task,
    scratch: &mut [i64],
) -> Result<Items<WrittenField>, AllocError>
    requires task { IsRunnable (problem_at moment.now) moment.now.places task.now }
    requires room { moment.now.places ≤ length scratch.old }
    ensures { IfOk result (λ fields. fields ≡ map (written_of (problem_at moment.now)) (field_changes_at moment.now task.now)) }
{
    let mut fields = Items::new(moment.alloc);
    for write in task.writes.as_slice() {
        push_line(moment, task, write, scratch, &mut fields)?;
    }
    Ok(fields)
}
