ghost use Rattle.std.specs.Prelude.{◌≡◌};
ghost use Rattle.reductions.specs.Folding.{identity_of, combined};

use problem_types::Fold;
use uts_num::wadd;

/// The number with which a fold begins: 0, the greatest or the least that there is.
pub fn identity(f: Fold) -> i64
    ensures { result ≡ identity_of f }
{
    match f {
        Fold::Sum => 0,
        Fold::Min => i64::MAX,
        Fold::Max => i64::MIN,
    }
}

/// Two numbers combined: added up, wrapping, or the lesser, or the greater.
pub fn combine(f: Fold, a: i64, b: i64) -> i64
    ensures { result ≡ combined f a b }
{
    match f {
        Fold::Sum => wadd(a, b),
        Fold::Min => a.min(b),
        Fold::Max => a.max(b),
    }
}
