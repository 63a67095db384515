//! The reductions that a task gives: each line's, over all levels and materials of the task.
ghost use Rattle.std.specs.Prelude.{◌≡◌, ◌<◌, ◌≤◌, ◌++◌, ◌∷◌, [], length, map, fold, All, IfOk, OnOk, if◌then◌else◌};
ghost use Rattle.std.specs.List.{flat_map};
ghost use Rattle.problem_types.specs.Lists.{is_reduces};
ghost use Rattle.problem_types.specs.Regions.{indexes_of};
ghost use Rattle.reductions.specs.Folding.{combined, all_combined};
ghost use Rattle.uts_model.specs.WholeField.{reduced_centring};
ghost use Rattle.plain_engine.specs.Moments.{problem_at, kernel_at, level_numbers, line_number_at, number_changes_at};
ghost use Rattle.plain_engine.specs.Runnable.{IsRunnable, IsRunnableLine, SufficesFor};

use crate::kernels::kernel_fold;
use crate::moment::Moment;
use crate::reducing::Reducing;
use crate::written::WrittenNumber;
use problem_lookup::{fold_of, is_reduces};
use problem_types::{Centring, Task, Write, WriteKind};
use reductions::identity;
use sqlite_items::Items;
use std::alloc::AllocError;
use task_check::bounds;
use uts_model::space_on;

/// The kernel's numbers on a level and a material, combined with those before them.
fn fold_material(
    moment: &Moment,
    reducing: &Reducing,
    level: u32,
    material: u32,
    total: i64,
    scratch: &mut [i64],
) -> i64
    requires level { level < length (problem_at moment.now).levels }
    requires kernel { SufficesFor (problem_at moment.now) moment.now.places reducing.now.kernel.now }
    requires room { moment.now.places ≤ length scratch.old }
    ensures { result ≡ fold (combined reducing.now.how) total
        (map (kernel_at moment.now reducing.now.kernel.now level material) (indexes_of (problem_at moment.now) level reducing.now.centring)) }
{
    let span = space_on(moment.checked, level as usize, reducing.centring);
    kernel_fold(
        reducing.how,
        total,
        moment,
        reducing.kernel,
        level,
        material,
        span,
        scratch,
    )
}

/// The kernel's numbers on a level, on all materials of a task, combined with those before them.
fn fold_materials(
    moment: &Moment,
    task: &Task,
    reducing: &Reducing,
    level: u32,
    total: i64,
    scratch: &mut [i64],
) -> i64
    requires task { IsRunnable (problem_at moment.now) moment.now.places task.now }
    requires level { level < length (problem_at moment.now).levels }
    requires kernel { SufficesFor (problem_at moment.now) moment.now.places reducing.now.kernel.now }
    requires room { moment.now.places ≤ length scratch.old }
    ensures { result ≡ fold (combined reducing.now.how) total
        (level_numbers moment.now task.now reducing.now.kernel.now reducing.now.centring level) }
{
    bounds(moment.checked);
    let mut all = total;
    for material in task.materials.as_slice() {
        all = fold_material(moment, reducing, level, *material as u32, all, scratch);
    }
    all
}

/// The kernel's numbers on all levels and materials of a task, combined.
fn fold_levels(moment: &Moment, task: &Task, reducing: &Reducing, scratch: &mut [i64]) -> i64
    requires task { IsRunnable (problem_at moment.now) moment.now.places task.now }
    requires kernel { SufficesFor (problem_at moment.now) moment.now.places reducing.now.kernel.now }
    requires room { moment.now.places ≤ length scratch.old }
    ensures { result ≡ all_combined reducing.now.how
        (flat_map (level_numbers moment.now task.now reducing.now.kernel.now reducing.now.centring) task.now.levels) }
{
    bounds(moment.checked);
    let mut all = identity(reducing.how);
    for level in task.levels.as_slice() {
        all = fold_materials(moment, task, reducing, *level as u32, all, scratch);
    }
    all
}

/// The centring at whose indexes a line reduces.
fn reduced_centring(kind: WriteKind) -> Centring
    ensures { result ≡ reduced_centring kind }
{
    match kind {
        WriteKind::Reduces(centring) => centring,
        WriteKind::Computes | WriteKind::Modifies => Centring::Cell,
    }
}

/// The number that a line gives its reduction.
fn written_number(moment: &Moment, task: &Task, write: &Write, scratch: &mut [i64]) -> WrittenNumber
    requires task { IsRunnable (problem_at moment.now) moment.now.places task.now }
    requires line { IsRunnableLine (problem_at moment.now) moment.now.places write.now }
    requires room { moment.now.places ≤ length scratch.old }
    ensures { result ≡ line_number_at moment.now task.now write.now }
{
    let reducing = Reducing {
        kernel: &write.expr,
        centring: reduced_centring(write.kind),
        how: fold_of(moment.checked.problem(), write.name),
    };
    WrittenNumber {
        name: write.name,
        number: fold_levels(moment, task, &reducing, scratch),
    }
}

/// Puts the number that a line gives at the end of `numbers`, if it reduces.
fn push_number(
    moment: &Moment,
    task: &Task,
    write: &Write,
    scratch: &mut [i64],
    numbers: &mut Items<WrittenNumber>,
) -> Result<(), AllocError>
    requires task { IsRunnable (problem_at moment.now) moment.now.places task.now }
    requires line { IsRunnableLine (problem_at moment.now) moment.now.places write.now }
    requires room { moment.now.places ≤ length scratch.old }
    ensures { OnOk result (numbers.new ≡ numbers.old
        ++ (if is_reduces write.now.kind then line_number_at moment.now task.now write.now ∷ [] else [])) }
{
    if is_reduces(write.kind) {
        numbers.push(written_number(moment, task, write, scratch))
    } else {
        Ok(())
    }
}

/// The reductions that a task gives, line by line.
pub(crate) fn written_numbers(
    moment: &Moment,
    task: &Task,
    scratch: &mut [i64],
) -> Result<Items<WrittenNumber>, AllocError>
    requires task { IsRunnable (problem_at moment.now) moment.now.places task.now }
    requires room { moment.now.places ≤ length scratch.old }
    ensures { IfOk result (λ numbers. numbers ≡ number_changes_at moment.now task.now) }
{
    let mut numbers = Items::new(moment.alloc);
    for write in task.writes.as_slice() {
        push_number(moment, task, write, scratch, &mut numbers)?;
    }
    Ok(numbers)
}
