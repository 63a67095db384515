//! Words that have a meaning in a statement.
use crate::statement::StatementKind;
use problem_types::{Centring, Fold, GhostKind, WriteKind};

pub(crate) const STATEMENTS: [(&[u8], StatementKind); 16] = [
    (b"problem", StatementKind::Version),
    (b"steps", StatementKind::Steps),
    (b"dump", StatementKind::Dump),
    (b"ghost", StatementKind::Ghost),
    (b"materials", StatementKind::Materials),
    (b"level", StatementKind::Level),
    (b"box", StatementKind::Box),
    (b"patch", StatementKind::Patch),
    (b"var", StatementKind::Var),
    (b"reduction", StatementKind::Reduction),
    (b"init", StatementKind::Init),
    (b"task", StatementKind::Task),
    (b"requires", StatementKind::Require),
    (b"timestep", StatementKind::Timestep),
    (b"keep", StatementKind::Keep),
    (b"end", StatementKind::End),
];

pub(crate) const CENTRINGS: [(&[u8], Centring); 5] = [
    (b"cell", Centring::Cell),
    (b"node", Centring::Node),
    (b"facex", Centring::FaceX),
    (b"facey", Centring::FaceY),
    (b"facez", Centring::FaceZ),
];

pub(crate) const FOLDS: [(&[u8], Fold); 3] = [
    (b"sum", Fold::Sum),
    (b"min", Fold::Min),
    (b"max", Fold::Max),
];

pub(crate) const GHOSTS: [(&[u8], GhostKind); 5] = [
    (b"cells", GhostKind::Cells),
    (b"nodes", GhostKind::Nodes),
    (b"facex", GhostKind::FaceX),
    (b"facey", GhostKind::FaceY),
    (b"facez", GhostKind::FaceZ),
];

pub(crate) const WRITES: [(&[u8], WriteKind); 2] = [
    (b"computes", WriteKind::Computes),
    (b"modifies", WriteKind::Modifies),
];
