//! The slots that the detailed tasks of a list write.
ghost use Rattle.std.specs.Prelude.{◌≡◌, ◌+◌, ◌*◌, ◌<◌, ◌≤◌, ◌++◌, ℕ, All, IfOk, List, OnOk};
ghost use Rattle.uts_geom.specs.Spans.{counted};
ghost use Rattle.problem_types.specs.Form.{IsProblemInForm};
ghost use Rattle.problem_types.specs.Lists.{task_list};
ghost use Rattle.problem_types.specs.declared.problem.Problem.{Problem};
ghost use Rattle.problem_types.specs.declared.problem.Task.{Task};
ghost use Rattle.task_check.specs.Bounds.{AreBoundedTasks};
ghost use Rattle.task_check.specs.First.{IsAccepted};
ghost use Rattle.graph_compiler.specs.Layouts.{AreLaidOut, rows, rows_of};
ghost use Rattle.graph_compiler.specs.Plan.{writes_of_list};

use crate::layout::Layout;
use problem_types::NoMemory;
use sqlite_items::Items;
use std::alloc::{AllocError, Global};

/// Some slots in a row.
fn in_row(alloc: Global, first: u32, count: u32) -> Result<Items<u32>, AllocError>
    requires { first + count ≤ 262144 }
    ensures { IfOk result (λ slots. slots ≡ counted first count) }
{
    let mut slots = Items::new(alloc);
    for k in 0..count {
        slots.push(first + k)?;
    }
    Ok(slots)
}

/// Puts some rows of slots at the end, of so many each, each behind the one before.
fn put_rows(
    alloc: Global,
    all: &mut Items<Items<u32>>,
    first: u32,
    row_count: u32,
    count: u32,
) -> Result<(), AllocError>
    requires { first + row_count * count ≤ 262144 }
    ensures { OnOk result (all.new ≡ all.old ++ rows first count row_count) }
{
    for row in 0..row_count {
        all.push(in_row(alloc, first + row * count, count)?)?;
    }
    Ok(())
}

/// Puts the slots that the detailed tasks of a task write at the end.
fn put_layout(alloc: Global, all: &mut Items<Items<u32>>, layout: Layout) -> Result<(), AllocError>
    requires { layout.first + (layout.parts * layout.lines + layout.numbers) ≤ 262144 }
    ensures { OnOk result (all.new ≡ all.old ++ rows_of layout) }
{
    put_rows(alloc, all, layout.first, layout.parts, layout.lines)?;
    let numbers = layout.first + layout.parts * layout.lines;
    put_rows(alloc, all, numbers, layout.numbers, 1)
}

/// For each detailed task of a list the slots that it writes, ascending.
pub(crate) fn all_writes(alloc: Global, layouts: &[Layout]) -> Result<Items<Items<u32>>, NoMemory>
    requires few { All (λ layout. layout.first + (layout.parts * layout.lines + layout.numbers) ≤ 262144) layouts.now }
    ensures { (p : Problem) (tasks : List Task) → IsProblemInForm p → IsAccepted p → AreBoundedTasks p tasks
        → (list : ℕ) → list < 2 → tasks ≡ task_list p list → AreLaidOut p tasks layouts.now
        → IfOk result (λ all. all ≡ writes_of_list p tasks) }
{
    let mut all = Items::new(alloc);
    for layout in layouts {
        put_layout(alloc, &mut all, *layout)?;
    }
    Ok(all)
}
