//! Steps as the dump shows them.
ghost use Rattle.std.specs.Prelude.{◌≡◌, ◌≤◌, [], IsTrue, if◌then◌else◌};
ghost use Rattle.problem_types.specs.Lists.{is_dumped};
ghost use Rattle.uts_model.specs.Dump.{shown_at, step_text};
ghost use Rattle.uts_model.specs.WholeField.{end_of_step};
ghost use Rattle.dump_text.specs.Writing.{Writes};
ghost use Rattle.whole_fields.specs.Stored.{state_of};
ghost use Rattle.plain_engine.specs.Held.{rows_of_step, numbers_of_step};

use crate::shown::StepRows;
use dump_text::{NoMemory, Rows, RunFault, dump_step};
use problem_lookup::is_dumped;
use std::alloc::Global;
use task_check::bounds;
use uts_io::Sink;

impl Rows for StepRows<'_> {
    ghost rows = { rows_of_step };

    ghost numbers = { numbers_of_step };

    fn row(
        &mut self,
        name: u32,
        material: u32,
        level: u32,
        y: i64,
        z: i64,
        out: &mut Vec<i64>,
    ) -> Result<(), NoMemory> {
        self.warehouse
            .copy_row(self.checked, self.shapes, name, material, level, y, z, out)
            .map_err(|_| NoMemory)
    }

    fn number(&self, name: u32) -> i64 {
        self.warehouse.number(self.checked, name)
    }
}

/// Writes what the dump shows of a step, by the warehouse at its end: nothing of a step that is not dumped.
pub(crate) fn show_step<O: Sink>(
    alloc: Global,
    end: &StepRows,
    step: u32,
    sink: &mut O,
) -> Result<(), RunFault>
    requires within { step ≤ end.now.checked.now.steps.value }
    requires state { state_of end.now.checked.now end.now.warehouse.now ≡ end_of_step end.now.checked.now step }
    ensures { Writes O.after (O.taken sink.old) (O.taken sink.new) (O.faults sink.old) (O.faults sink.new) result
        (if is_dumped end.now.checked.now step then step_text end.now.checked.now (shown_at end.now.checked.now step) step else []) }
{
    bounds(end.checked);
    if !is_dumped(end.checked.problem(), step) {
        return Ok(());
    }
    let mut rows = *end;
    dump_step(
        alloc,
        sink,
        end.checked,
        step,
        &mut rows,
        &mut Vec::new(alloc),
    )
}
