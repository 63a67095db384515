//! Why a detailed task that is given what its slots have to hold gives what its own have to hold, each law as the contract of a function
//! that does nothing.
ghost use Rattle.slot_contents.specs.Laws.{SlotsHoldWhatStood, WindowsAreCovered, OutsideStandsOutside, NumbersHoldWhatStood, NumbersAreRead, PartsMakeReductions, KernelsMakeFields};

use graph_compiler::slots_stand_once;
use patch_regions::owned_spans_tile;
use reductions::{order_does_not_matter, parts_fold_apart};
use task_check::accepted_problems_are_bounded;
use uts_geom::{indexes_stand_once, spans_hold_their_indexes, spans_meet_in_indexes};

/// A slot that has a variable as it stands for a task holds what stood before the task.
pub fn slots_hold_what_stood()
    ensures { SlotsHoldWhatStood }
{}

/// Each index that a task sees of a variable is owned by the patch of a slot that it reads.
pub fn windows_are_covered()
    ensures { WindowsAreCovered }
{
    accepted_problems_are_bounded();
    owned_spans_tile();
    spans_meet_in_indexes();
}

/// Outside its index space a variable that is required stands at its outside number.
pub fn outside_stands_outside()
    ensures { OutsideStandsOutside }
{}

/// A slot that has the number of a required reduction holds what stood before the task.
pub fn numbers_hold_what_stood()
    ensures { NumbersHoldWhatStood }
{
    slots_stand_once();
}

/// A detailed task reads a slot for each number that it requires.
pub fn numbers_are_read()
    ensures { NumbersAreRead }
{
    accepted_problems_are_bounded();
}

/// The parts of a line that reduces, combined, are the reduction after the task.
pub fn parts_make_reductions()
    ensures { PartsMakeReductions }
{
    accepted_problems_are_bounded();
    slots_stand_once();
    owned_spans_tile();
    parts_fold_apart();
    order_does_not_matter();
    spans_hold_their_indexes();
    indexes_stand_once();
}

/// The numbers of a line's kernel on what a patch owns are the line's variable after the task.
pub fn kernels_make_fields()
    ensures { KernelsMakeFields }
{
    accepted_problems_are_bounded();
    slots_stand_once();
    owned_spans_tile();
}
