//! Indexes and spans of a coarser level.
ghost use Rattle.std.specs.Prelude.{◌≡◌, ◌≤◌, nat_abs, pos};
ghost use Rattle.std.specs.Int.{int_div_euclid};
ghost use Rattle.uts_geom.specs.Spans.{IsNearSpan};
ghost use Rattle.problem_types.specs.Regions.{coarse_index};
ghost use Rattle.ghost_rules.specs.Windows.{window_of};
ghost use Rattle.grid_levels.specs.Good.{divided};
ghost use Rattle.refine_coarsen.specs.Levels.{IsRatio};

use ghost_rules::window;
use problem_types::Ghost;
use uts_geom::{Centring, Index, Span};

/// The coordinate of the next coarser level in which one lies, rounded down.
fn coarse(n: i64, ratio: i64) -> i64
    requires { IsRatio ratio }
    ensures { result ≡ int_div_euclid n (pos (nat_abs ratio)) }
{
    match ratio {
        2 => n.div_euclid(2),
        _ => n.div_euclid(4),
    }
}

/// The index of the next coarser level in which one lies.
pub fn coarse_index(i: Index, ratio: i64) -> Index
    requires { IsRatio ratio }
    ensures { result ≡ coarse_index (nat_abs ratio) i }
{
    Index {
        x: coarse(i.x, ratio),
        y: coarse(i.y, ratio),
        z: coarse(i.z, ratio),
    }
}

/// What a task sees of the next coarser level around a patch: the window of these layers around the patch divided by the ratio.
pub fn coarse_span(patch: Span, ratio: i64, layers: Ghost, c: Centring) -> Span
    requires ratio { IsRatio ratio }
    requires near { IsNearSpan patch }
    requires few { layers.n ≤ 8 }
    ensures { result ≡ window_of layers c (divided (nat_abs ratio) patch) }
{
    let lo = coarse_index(patch.lo, ratio);
    let hi = coarse_index(patch.hi, ratio);
    window(layers, c, Span { lo, hi })
}
