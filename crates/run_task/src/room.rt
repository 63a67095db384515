//! Room for what a detailed task writes, and for its kernels.
ghost use Rattle.std.specs.Prelude.{◌≡◌, ◌≤◌, ◌^◌, ◌++◌, ◌∷◌, [], List, pos, IfOk, OnOk, length};
ghost use Rattle.uts_geom.specs.Spans.{IsNearSpan, indexes_of, width_of};
ghost use Rattle.uts_geom.specs.declared.centring.Centring.{Centring as AnyCentring};
ghost use Rattle.problem_types.specs.declared.problem.Write.{Write};
ghost use Rattle.kernel_sweeps.specs.Room.{IsAtMostDeep, room_on};
ghost use Rattle.slot_contents.specs.Contents.{owned_on};
ghost use Rattle.run_task.specs.Gathered.{AreRoomFor, IsRoomFor};
ghost use Rattle.run_task.specs.Sites.{IsPlaced};

use crate::job::StepJob;
use crate::pushing::put;
use crate::work::Site;
use field_box::{Field, Value, width};
use graph_types::NoMemory;
use kernel_rows::scratch_places;
use patch_regions::owned;
use problem_lookup::{centring_of, is_of_field};
use problem_types::{Centring, Task, Write};
use task_check::{Checked, accepted_problems_are_bounded, level_at};
use uts_geom::Span;

/// What the patch of a site owns.
pub(crate) fn owned_at(c: &Checked, site: Site, centring: Centring) -> Span
    requires { IsPlaced c.now site }
    ensures owned { result ≡ owned_on c.now site.level site.patch centring }
    ensures near { IsNearSpan result }
    ensures few { length (indexes_of result) ≤ 2 ^ 21 }
    ensures narrow { width_of result ≤ 4097 }
{
    accepted_problems_are_bounded();
    let p = c.problem();
    owned(level_at(p, u64::from(site.level)), site.patch, centring)
}

/// A field on what the patch owns.
fn field_for(job: &StepJob, site: Site, centring: Centring) -> Result<Field, NoMemory>
    requires { IsPlaced job.now.checked.now site }
    ensures { IfOk result (λ f. f.span ≡ owned_on job.now.checked.now site.level site.patch centring) }
{
    match Field::filled(job.alloc, owned_at(job.checked, site, centring), 0) {
        Ok(field) => Ok(field),
        Err(_) => Err(NoMemory),
    }
}

/// Room for what a line writes: a field on what the patch owns, or a number.
fn output_for(job: &StepJob, site: Site, write: &Write) -> Result<Value, NoMemory>
    requires { IsPlaced job.now.checked.now site }
    ensures { IfOk result (IsRoomFor job.now.checked.now site write.now) }
{
    if !is_of_field(write.kind) {
        return Ok(Value::Number(0));
    }
    let centring = centring_of(job.checked.problem(), write.name);
    Ok(Value::Grid(field_for(job, site, centring)?))
}

/// Puts room for what a line writes at the end.
fn push_output(
    outputs: &mut Vec<Value>,
    job: &StepJob,
    site: Site,
    write: &Write,
) -> Result<(), NoMemory>
    requires { IsPlaced job.now.checked.now site }
    ensures { OnOk result ((before : List Write) → AreRoomFor job.now.checked.now site before outputs.old.items →
        AreRoomFor job.now.checked.now site (before ++ write.now ∷ []) outputs.new.items) }
{
    let output = output_for(job, site, write)?;
    put(outputs, output)?;
    Ok(())
}

/// Room for what each line of a task writes, in their order.
pub(crate) fn outputs_for(job: &StepJob, site: Site, task: &Task) -> Result<Vec<Value>, NoMemory>
    requires { IsPlaced job.now.checked.now site }
    ensures { IfOk result (λ outputs. AreRoomFor job.now.checked.now site task.now.writes outputs.items) }
{
    let mut outputs = Vec::new(job.alloc);
    for write in task.writes.as_slice() {
        push_output(&mut outputs, job, site, write)?;
    }
    Ok(outputs)
}

/// How many places of scratch suffice for the kernels of the step's tasks on what a patch owns: for a row of their numbers, and for
/// their parts.
pub(crate) fn places_for(job: &StepJob, site: Site) -> usize
    requires { IsPlaced job.now.checked.now site }
    ensures { (w : Write) (c : AnyCentring) → IsAtMostDeep job.now.depth w →
        room_on w.expr (owned_on job.now.checked.now site.level site.patch c) ≤ result }
{
    let row = width(owned_at(job.checked, site, Centring::Node));
    row + scratch_places(row, job.depth)
}
