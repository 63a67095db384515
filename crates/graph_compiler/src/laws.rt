//! Laws on plans.
ghost use Rattle.graph_compiler.specs.Laws.{PlansAreCounted, PlansAreValid};
ghost use Rattle.graph_compiler.specs.Slots.{DetailsAreOfList, SlotsAreOfList, SlotsStandOnce, WritesStandInOrder};

/// The graph of each plan of a problem that is in form and accepted is valid.
pub fn plans_are_valid()
    ensures { PlansAreValid }
{}

/// The graph of each plan has as many detailed tasks, slots and reads as the checker counts and compares with the limits.
pub fn plans_are_counted()
    ensures { PlansAreCounted }
{}

/// Each slot of a list is of the problem and of the tasks of the list.
pub fn slots_are_of_lists()
    ensures { SlotsAreOfList }
{}

/// Each detailed task of a list is of the problem and of a task of the list.
pub fn details_are_of_lists()
    ensures { DetailsAreOfList }
{}

/// Each slot of a list stands at one place, a task writes a variable by one line, and a list reduces a reduction by one.
pub fn slots_stand_once()
    ensures { SlotsStandOnce }
{}

/// What a detailed task writes stands in the order of its lines.
pub fn writes_stand_in_order()
    ensures { WritesStandInOrder }
{}
