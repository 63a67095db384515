//! How much scratch the kernels of a problem need.
ghost use Rattle.std.specs.Prelude.{◌≡◌, ◌<◌, ◌≤◌, ◌∷◌, [], ℕ, All, length};
ghost use Rattle.uts_geom.specs.Spans.{width_of};
ghost use Rattle.uts_geom.specs.declared.centring.Centring.{Centring};
ghost use Rattle.uts_geom.specs.declared.span.Span.{Span};
ghost use Rattle.problem_types.specs.Lists.{task_list};
ghost use Rattle.problem_types.specs.Regions.{spaces_of};
ghost use Rattle.plain_engine.specs.Runnable.{IsRunnable};

use kernel_sweeps::{deepest_kernel, width};
use problem_types::Centring;
use task_check::{Checked, bounds};
use uts_model::space_on;

/// The length of the longest rows of a level: those of its nodes.
fn row_length(c: &Checked, level: u32) -> usize
    requires { level < length c.now.levels }
    ensures wide { (k : Centring) (s : Span) → spaces_of c.now level k ≡ s ∷ [] → width_of s ≤ result }
    ensures narrow { result ≤ 4097 }
{
    width(space_on(c, level as usize, Centring::Node))
}

/// The length of the longest rows of a problem.
fn longest_row(c: &Checked) -> usize
    ensures wide { (level : ℕ) (k : Centring) (s : Span) → level < length c.now.levels → spaces_of c.now level k ≡ s ∷ [] → width_of s ≤ result }
    ensures narrow { result ≤ 4097 }
{
    bounds(c);
    let mut longest = 0;
    for level in 0..c.problem().levels.len() as u32 {
        longest = row_length(c, level).max(longest);
    }
    longest
}

/// How many places of scratch suffice for each kernel of a problem: for a row of its numbers, and for its parts.
pub(crate) fn scratch_places(c: &Checked) -> usize
    ensures { (number : ℕ) → All (IsRunnable c.now result) (task_list c.now number) }
{
    bounds(c);
    let p = c.problem();
    let width = longest_row(c);
    let init = deepest_kernel(p.init.as_slice(), p.names.len());
    let timestep = deepest_kernel(p.timestep.as_slice(), p.names.len());
    width + kernel_rows::scratch_places(width, init.max(timestep))
}
