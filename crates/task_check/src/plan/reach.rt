use ghost_rules::Seen;
use problem_types::Ghost;

/// Where a requirement of a variable looks around a patch: on the task's own level at what is seen, on the next coarser
/// level at layers of ghost data, on the next finer level at the children.
#[derive(Clone, Copy, Debug, PartialEq, Eq)]
pub enum Reach {
    Same(Seen),
    Coarse(Ghost),
    Fine,
}
