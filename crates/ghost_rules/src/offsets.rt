//! The offsets at which kernels may read.
ghost use Rattle.std.specs.Prelude.{◌≡◌};
ghost use Rattle.uts_geom.specs.Centrings.{is_point_like};
ghost use Rattle.ghost_rules.specs.Windows.{AreFew, AreFewSeen, offset_begin, offset_end, is_allowed_along, seen_along, is_offset_allowed};

use crate::along::Along;
use crate::seen::Seen;
use crate::windows::along;
use uts_geom::{Axis, Centring, point_like};

/// The least offset on an axis.
fn offset_begin(a: Along, variable: bool) -> i64
    requires { AreFew a }
    ensures { result ≡ offset_begin a variable }
{
    match a {
        Along::Nothing | Along::Own => 0,
        Along::Intervals(n) => i64::from(variable) - n as i64,
        Along::Points(n) => -(n as i64),
    }
}

/// The first offset beyond the greatest on an axis.
fn offset_end(a: Along, variable: bool, kernel: bool) -> i64
    requires { AreFew a }
    ensures { result ≡ offset_end a variable kernel }
{
    match a {
        Along::Own => i64::from(variable || !kernel),
        Along::Nothing => i64::from(variable) + i64::from(!kernel),
        Along::Intervals(n) => n as i64 + i64::from(!kernel),
        Along::Points(n) => n as i64 + i64::from(variable) + i64::from(!kernel),
    }
}

fn is_allowed_along(a: Along, variable: bool, kernel: bool, by: i64) -> bool
    requires { AreFew a }
    ensures { result ≡ is_allowed_along a variable kernel by }
{
    offset_begin(a, variable) <= by && by < offset_end(a, variable, kernel)
}

fn seen_along(seen: Seen, axis: Axis) -> Along
    requires { AreFewSeen seen }
    ensures seen { result ≡ seen_along seen axis }
    ensures few { AreFew result }
{
    match seen {
        Seen::Ghosted(layers) => along(layers, axis),
        Seen::Own => Along::Own,
    }
}

fn is_allowed_on(seen: Seen, c: Centring, kernel: Centring, axis: Axis, by: i64) -> bool
    requires { AreFewSeen seen }
    ensures { result ≡ is_allowed_along (seen_along seen axis) (is_point_like c axis) (is_point_like kernel axis) by }
{
    let (variable, kernel) = (point_like(c, axis), point_like(kernel, axis));
    is_allowed_along(seen_along(seen, axis), variable, kernel, by)
}

/// Whether a kernel that runs at the indexes of one centring may read a variable of another at the offset in cells by axis,
/// x, y, z.
pub fn offset_allowed(seen: Seen, c: Centring, kernel: Centring, offset: [i64; 3]) -> bool
    requires { AreFewSeen seen }
    ensures { result ≡ is_offset_allowed seen c kernel offset }
{
    let [x, y, z] = offset;
    is_allowed_on(seen, c, kernel, Axis::X, x)
        && is_allowed_on(seen, c, kernel, Axis::Y, y)
        && is_allowed_on(seen, c, kernel, Axis::Z, z)
}
