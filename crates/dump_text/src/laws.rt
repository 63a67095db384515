//! What probes have seen at the end of a run, as the contract of a function that does nothing.
ghost use Rattle.dump_text.specs.Laws.{ProbesSeeTheDump};

/// Where `dump_begin`, `dump_step` at each dumped step, with rows that are right, and `dump_end` were Ok, each probe's state is its fold
/// over all rows of the dump, from the state before.
pub fn probes_see_the_dump()
    ensures { ProbesSeeTheDump }
{}
