//! The kernels of a detailed task on a patch, and the values that it writes.
ghost use Rattle.std.specs.Prelude.{◌≡◌, ◌<◌, ◌≤◌, ◌∷◌, [], Some, length, slice_get};
ghost use Rattle.uts_geom.specs.Spans.{IsNearSpan};
ghost use Rattle.task_check.specs.Supplies.{kernel_centring};
ghost use Rattle.slot_contents.specs.Contents.{owned_on};
ghost use Rattle.std.specs.Prelude.{true};
ghost use Rattle.problem_types.specs.Lists.{is_reduces};
ghost use Rattle.kernel_sweeps.specs.Room.{room_on};
ghost use Rattle.field_box.specs.declared.value.Value.TheVariants.{Grid, Number};
ghost use Rattle.run_task.specs.Gathered.{HasRoom};
ghost use Rattle.run_task.specs.Written.{AreWritten, IsReadyFor, IsWritten};
ghost use Rattle.graph_types.specs.Graph.{reads_of, writes_of};
ghost use Rattle.slot_contents.specs.Contents.{contents_of};
ghost use Rattle.slot_contents.specs.Values.{Fits};
ghost use Rattle.unified_scheduler.specs.Fitting.{AreFitting};
ghost use Rattle.run_task.specs.Gathered.{HasGathered};
ghost use Rattle.run_task.specs.Seen.{DoSeeAll};
ghost use Rattle.run_task.specs.declared.work.Work.TheVariants as work;

use crate::job::StepJob;
use crate::patch_kernels::PatchKernels;
use crate::places::{detail_at, site_of, task_at};
use crate::room::owned_at;
use crate::work::{CombiningWork, PatchWork, Work};
use field_box::{Field, Value};
use ghost_rules::offsets_fit_windows;
use graph_compiler::writes_stand_in_order;
use kernel_sweeps::{Sweep, fill_field, fold_numbers};
use problem_lookup::fold_of;
use problem_types::Write;
use reductions::identity;
use slot_contents::{
    kernels_make_fields, numbers_are_read, outside_stands_outside, parts_make_reductions,
    windows_are_covered,
};
use task_check::{accepted_problems_are_bounded, kernel_centring};
use uts_geom::{Span, spans_hold_their_indexes};

/// What the patch owns at the indexes where the kernel of a line runs.
fn span_of(k: &PatchKernels, write: &Write) -> Span
    requires sees { DoSeeAll k.now }
    ensures owned { result ≡ owned_on k.now.checked.now k.now.site.level k.now.site.patch (kernel_centring k.now.checked.now write.now) }
    ensures near { IsNearSpan result }
{
    accepted_problems_are_bounded();
    let centring = kernel_centring(k.checked.problem(), write);
    owned_at(k.checked, k.site, centring)
}

/// The kernel of a line, on what the patch owns.
fn sweep_of<'a>(k: &PatchKernels<'a>, write: &'a Write) -> Sweep<'a>
    requires sees { DoSeeAll k.now }
    ensures kernel { result.kernel.now ≡ write.now.expr }
    ensures step { result.step ≡ k.now.windows.now.step }
    ensures material { result.material ≡ k.now.windows.now.material }
    ensures level { result.level ≡ k.now.windows.now.level }
    ensures span { result.span ≡ owned_on k.now.checked.now k.now.site.level k.now.site.patch (kernel_centring k.now.checked.now write.now) }
{
    Sweep {
        kernel: &write.expr,
        step: k.windows.step,
        material: k.windows.material,
        level: k.windows.level,
        span: span_of(k, write),
    }
}

/// Gives a field the numbers of the kernel of a line.
fn fill_line(k: &PatchKernels, line: usize, write: &Write, field: &mut Field, scratch: &mut [i64])
    requires sees { DoSeeAll k.now }
    requires line { slice_get k.now.task.now.writes line ≡ Some write.now }
    requires room { IsReadyFor k.now line (Grid field.old) (length scratch.old) }
    ensures { IsWritten k.now line (Grid field.new) }
{
    accepted_problems_are_bounded();
    windows_are_covered();
    outside_stands_outside();
    numbers_are_read();
    offsets_fit_windows();
    kernels_make_fields();
    spans_hold_their_indexes();
    fill_field(&sweep_of(k, write), k.windows, field, scratch);
    let _numbers = field.numbers();
}

/// The numbers of the kernel of a line, combined.
fn fold_line(k: &PatchKernels, line: usize, write: &Write, scratch: &mut [i64]) -> i64
    requires sees { DoSeeAll k.now }
    requires line { slice_get k.now.task.now.writes line ≡ Some write.now }
    requires reduces { is_reduces write.now.kind ≡ true }
    requires room { room_on write.now.expr (owned_on k.now.checked.now k.now.site.level k.now.site.patch (kernel_centring k.now.checked.now write.now)) ≤ length scratch.old }
    ensures { IsWritten k.now line (Number result) }
{
    accepted_problems_are_bounded();
    windows_are_covered();
    outside_stands_outside();
    numbers_are_read();
    offsets_fit_windows();
    spans_hold_their_indexes();
    let fold = fold_of(k.checked.problem(), write.name);
    fold_numbers(
        fold,
        identity(fold),
        &sweep_of(k, write),
        k.windows,
        scratch,
    )
}

/// Gives a value what a line writes.
fn run_line(k: &PatchKernels, line: usize, output: &mut Value, scratch: &mut [i64])
    requires sees { DoSeeAll k.now }
    requires line { line < length k.now.task.now.writes }
    requires room { IsReadyFor k.now line output.old (length scratch.old) }
    ensures { IsWritten k.now line output.new }
{
    let write = &k.task.writes.as_slice()[line];
    match output {
        Value::Grid(field) => fill_line(k, line, write, field, scratch),
        Value::Number(n) => *n = fold_line(k, line, write, scratch),
    }
}

/// Gives each value what its line writes.
pub(crate) fn run_lines(k: &PatchKernels, outputs: &mut [Value], scratch: &mut [i64])
    requires sees { DoSeeAll k.now }
    requires room { HasRoom k.now.checked.now k.now.task.now k.now.site outputs.old (length scratch.old) }
    ensures { AreWritten k.now outputs.new }
{
    for line in 0..outputs.len() {
        run_line(k, line, &mut outputs[line], scratch);
    }
}

/// The values that a detailed task on a patch writes, with all that it reads gathered.
fn run_on_patch(job: &StepJob, task: u32, gathered: PatchWork) -> Vec<Value>
    requires gathered { HasGathered job.now.checked.now job.now.step task (length (reads_of job.now.plan.now.graph task)) (work.Patch gathered) }
    ensures { AreFitting Fits (contents_of job.now.checked.now job.now.step) (writes_of job.now.plan.now.graph task) result.items }
{
    writes_stand_in_order();
    let PatchWork {
        windows,
        mut outputs,
        mut scratch,
    } = gathered;
    let site = site_of(job, detail_at(job, task));
    let kernels = PatchKernels {
        checked: job.checked,
        task: task_at(job, site.task),
        site,
        windows: &windows,
    };
    run_lines(&kernels, &mut outputs, &mut scratch);
    outputs
}

/// The one value of a detailed task that combined parts.
fn number_of(combined: CombiningWork) -> Vec<Value>
    requires { length combined.outputs.items ≡ 1 }
    ensures { result.items ≡ Number combined.number ∷ [] }
{
    let CombiningWork {
        number,
        mut outputs,
        ..
    } = combined;
    outputs[0] = Value::Number(number);
    outputs
}

/// The values of the slots that the task writes, in their order. It takes no memory.
pub(crate) fn run(job: &StepJob, task: u32, gathered: Work) -> Vec<Value>
    requires gathered { HasGathered job.now.checked.now job.now.step task (length (reads_of job.now.plan.now.graph task)) gathered }
    ensures { AreFitting Fits (contents_of job.now.checked.now job.now.step) (writes_of job.now.plan.now.graph task) result.items }
{
    writes_stand_in_order();
    parts_make_reductions();
    match gathered {
        Work::Patch(on_patch) => run_on_patch(job, task, on_patch),
        Work::Combining(parts) => number_of(parts),
    }
}
