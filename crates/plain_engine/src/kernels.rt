//! The kernels of tasks, on a level and a material.
ghost use Rattle.std.specs.Prelude.{◌≡◌, ◌≤◌, map, fold, length, IfOk};
ghost use Rattle.uts_geom.specs.Spans.{IsNearSpan, indexes_of};
ghost use Rattle.reductions.specs.Folding.{combined};
ghost use Rattle.kernel_sweeps.specs.Room.{room_on};
ghost use Rattle.plain_engine.specs.Moments.{AreReadsAt, kernel_at};

use crate::moment::Moment;
use crate::sweeping::field_numbers;
use kernel_ast::Expr;
use kernel_sweeps::{Sweep, fold_numbers};
use problem_types::Fold;
use sqlite_items::Items;
use std::alloc::AllocError;
use uts_geom::Span;
use whole_fields::Stores;

/// What the reads of kernels see on a level and a material.
fn stores<'a>(moment: &Moment<'a>, level: u32, material: u32) -> Stores<'a>
    ensures { AreReadsAt result moment.now level material }
{
    Stores {
        checked: moment.checked,
        shapes: moment.shapes,
        old: moment.old,
        new: moment.new,
        material,
        level,
    }
}

/// The numbers of a kernel on a level and a material at all indexes of a span, in order.
pub(crate) fn kernel_numbers(
    moment: &Moment,
    kernel: &Expr,
    level: u32,
    material: u32,
    span: Span,
    scratch: &mut [i64],
) -> Result<Items<i64>, AllocError>
    requires near { IsNearSpan span }
    requires room { room_on kernel.now span ≤ length scratch.old }
    ensures { IfOk result (λ numbers. numbers ≡ map (kernel_at moment.now kernel.now level material) (indexes_of span)) }
{
    let step = moment.step;
    let sweep = Sweep {
        kernel,
        step,
        material,
        level,
        span,
    };
    field_numbers(
        moment.alloc,
        &sweep,
        &stores(moment, level, material),
        scratch,
    )
}

/// The numbers of a kernel on a level and a material at all indexes of a span, combined with those before them.
pub(crate) fn kernel_fold(
    how: Fold,
    total: i64,
    moment: &Moment,
    kernel: &Expr,
    level: u32,
    material: u32,
    span: Span,
    scratch: &mut [i64],
) -> i64
    requires near { IsNearSpan span }
    requires room { room_on kernel.now span ≤ length scratch.old }
    ensures { result ≡ fold (combined how) total (map (kernel_at moment.now kernel.now level material) (indexes_of span)) }
{
    let step = moment.step;
    let sweep = Sweep {
        kernel,
        step,
        material,
        level,
        span,
    };
    fold_numbers(
        how,
        total,
        &sweep,
        &stores(moment, level, material),
        scratch,
    )
}
