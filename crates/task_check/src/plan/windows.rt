//! The windows that requirements ask for around the patches of a task.
ghost use Rattle.std.specs.Prelude.{◌≡◌, ◌+◌, ◌<◌, ◌≤◌, ◌+ℤ◌, ◌*ℤ◌, pos, if◌then◌else◌, length, slice_get, IsFalse, Some};
ghost use Rattle.std.specs.List.{list_any};
ghost use Rattle.kernel_ast.specs.declared.expression.Store.TheVariants as store;
ghost use Rattle.uts_geom.specs.Spans.{IsNearNumber, IsNearSpan, counted, do_meet};
ghost use Rattle.uts_geom.specs.declared.span.Span.{Span};
ghost use Rattle.problem_types.specs.Form.{IsProblemInForm, IsWhatInForm};
ghost use Rattle.problem_types.specs.Levels.{HasNearBounds, KeepsGridLimits, cells_of};
ghost use Rattle.problem_types.specs.Lists.{centring_of};
ghost use Rattle.problem_types.specs.Regions.{ratio_of};
ghost use Rattle.problem_types.specs.declared.problem.Level.{Level};
ghost use Rattle.problem_types.specs.declared.problem.Task.{Task};
ghost use Rattle.patch_regions.specs.Regions.{patch_at};
ghost use Rattle.task_rules.specs.Lines.{wanted_level};
ghost use Rattle.ghost_rules.specs.Windows.{AreFewSeen};
ghost use Rattle.task_check.specs.First.{IsFaultless};
ghost use Rattle.task_check.specs.Supplies.{layers_of};
ghost use Rattle.task_check.specs.Plan.{is_of_number, refined, wanted_window, window_seen};
ghost use Rattle.task_check.specs.Reaches.{IsFewReached, reach_window};
ghost use Rattle.task_check.specs.Supplies.{seen_by_kind, seen_of};

use crate::plan::reach::Reach;
use crate::plan::reads::reach_of;
use ghost_rules::{Seen, window};
use grid_levels::divided;
use patch_regions::{index_space, owned, patch_box, patch_line};
use problem_lookup::centring_of;
use problem_types::{
    BoxLine, Centring, Ghost, GhostKind, Level, Problem, Require, Store, Task, Var, What, Write,
    WriteKind, level_box,
};
use task_rules::wanted_name;
use uts_geom::{Axis, Index, Span, point_like, spans_meet_in_indexes};

/// The level of this number.
pub fn level_at(p: &Problem, level: u64) -> &Level
    requires { level < length p.now.levels }
    ensures { slice_get p.now.levels level ≡ Some result.now }
{
    &p.levels.as_slice()[level as usize]
}

/// The level on which a requirement wants its variable, by the task's level.
pub fn wanted_level(what: What, level: u64) -> u64
    requires { level < 4 }
    ensures { result ≡ wanted_level what level }
{
    match what {
        What::Same { .. } | What::Number { .. } => level,
        What::Coarse { .. } => level.saturating_sub(1),
        What::Fine { .. } => level + 1,
    }
}

/// The refinement ratio of a level to the next coarser one, 1 where there is no such level.
pub(crate) fn ratio_of(p: &Problem, level: u64) -> u64
    ensures { result ≡ ratio_of p.now level }
{
    p.levels
        .as_slice()
        .get(level as usize)
        .map_or(1, |l| l.ratio)
}

/// Where a coordinate lies on a level that is finer by a ratio, and one further where a point there counts besides.
fn fine(ratio: u64, at: u64, point: bool) -> i64
    requires near { at ≤ 4096 }
    requires few { ratio ≤ 4 }
    ensures fine { result ≡ pos ratio *ℤ pos at +ℤ (if point then pos 1 else pos 0) }
    ensures near { IsNearNumber result }
{
    (ratio * at + u64::from(point)) as i64
}

/// The cells of a box, refined by a ratio, and what they hold besides where the variable is point-like.
fn refined(c: Centring, ratio: u64, b: BoxLine) -> Span
    requires near { HasNearBounds b }
    requires few { ratio ≤ 4 }
    ensures refined { result ≡ refined c ratio (cells_of b) }
    ensures near { IsNearSpan result }
{
    Span {
        lo: Index {
            x: fine(ratio, b.lo[0], false),
            y: fine(ratio, b.lo[1], false),
            z: fine(ratio, b.lo[2], false),
        },
        hi: Index {
            x: fine(ratio, b.hi[0], point_like(c, Axis::X)),
            y: fine(ratio, b.hi[1], point_like(c, Axis::Y)),
            z: fine(ratio, b.hi[2], point_like(c, Axis::Z)),
        },
    }
}

/// The window that is seen around a patch of a level.
fn window_seen(seen: Seen, c: Centring, l: &Level, patch: u32) -> Span
    requires few { AreFewSeen seen }
    requires limits { KeepsGridLimits l.now }
    requires patch { patch < length l.now.patches }
    ensures { result ≡ window_seen seen c l.now patch }
{
    match seen {
        Seen::Ghosted(layers) => window(layers, c, patch_box(l, patch)),
        Seen::Own => owned(l, patch, c),
    }
}

/// The window around a patch of a level, in the indexes of the level that is reached.
pub fn reach_window(p: &Problem, reach: Reach, c: Centring, level: u64, patch: u32) -> Span
    requires form { IsProblemInForm p.now }
    requires faultless { IsFaultless p.now }
    requires few { IsFewReached reach }
    requires level { level < length p.now.levels }
    requires patch { (l : Level) → slice_get p.now.levels level ≡ Some l → patch < length l.patches }
    ensures { (l : Level) → slice_get p.now.levels level ≡ Some l → result ≡ reach_window p.now reach c level l patch }
{
    let l = level_at(p, level);
    match reach {
        Reach::Same(seen) => window_seen(seen, c, l, patch),
        Reach::Coarse(layers) => {
            let coarse = divided(patch_line(l, patch), ratio_of(p, level));
            window(layers, c, coarse)
        }
        Reach::Fine => refined(c, ratio_of(p, level + 1), patch_line(l, patch)),
    }
}

/// The windows that a requirement of a variable at the end of the step before asks for around the patches of a level, together: what the
/// requirement asks for around the level's box.
pub(crate) fn box_window(p: &Problem, what: What, from: u64) -> Span
    requires form { IsProblemInForm p.now }
    requires faultless { IsFaultless p.now }
    requires what { IsWhatInForm (length p.now.names) what }
    requires variable { IsFalse (is_of_number what) }
    requires few { layers_of what ≤ 8 }
    requires from { from < length p.now.levels }
    requires wanted { wanted_level what from < length p.now.levels }
    ensures { (t : Task) (l : Level) (own : Span) → slice_get p.now.levels from ≡ Some l →
        do_meet own result ≡ list_any (λ near. do_meet own (wanted_window p.now t store.Old what from l near)) (counted 0 (length l.patches)) }
{
    spans_meet_in_indexes();
    let c = centring_of(p, wanted_name(what));
    let l = level_at(p, from);
    match what {
        What::Same { layers, .. } => window(layers, c, index_space(l, Centring::Cell)),
        What::Coarse { layers, .. } => window(layers, c, divided(level_box(l), ratio_of(p, from))),
        What::Fine { .. } => refined(c, ratio_of(p, from + 1), level_box(l)),
        What::Number { .. } => unreachable!(),
    }
}

/// The window that a requirement of a task asks for around a patch of the task's level.
pub fn wanted_window(p: &Problem, t: &Task, r: Require, level: u64, patch: u32) -> Span
    requires form { IsProblemInForm p.now }
    requires faultless { IsFaultless p.now }
    requires few { layers_of r.what ≤ 8 }
    requires level { level < length p.now.levels }
    requires patch { (l : Level) → slice_get p.now.levels level ≡ Some l → patch < length l.patches }
    ensures { (l : Level) → slice_get p.now.levels level ≡ Some l → result ≡ wanted_window p.now t.now r.store r.what level l patch }
{
    match reach_of(t, r) {
        Some(reach) => reach_window(p, reach, centring_of(p, wanted_name(r.what)), level, patch),
        None => patch_box(level_at(p, level), patch),
    }
}
