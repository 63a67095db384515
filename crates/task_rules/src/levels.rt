//! Levels that are wanted and are not there.
ghost use Rattle.std.specs.Prelude.{◌↔◌, IsTrue};
ghost use Rattle.task_rules.specs.Names.{WantsMissingLevel};

use problem_types::What;

/// Whether a task that runs on these of the levels, of which there are `count`, wants a level that is not there: a
/// coarser one than level 0, or a finer one than the finest.
pub fn wants_missing_level(count: usize, levels: &[u64], what: What) -> bool
    ensures { IsTrue result ↔ WantsMissingLevel count levels.now what }
{
    match what {
        What::Coarse { .. } => levels.contains(&0),
        What::Fine { .. } => levels.iter().any(|l| count as u64 <= l.saturating_add(1)),
        What::Same { .. } | What::Number { .. } => false,
    }
}
