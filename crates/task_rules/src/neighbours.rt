//! Numbers of a list, and neighbours among them.
ghost use Rattle.std.specs.Prelude.{◌≡◌, ◌+◌, ◌==◌, ◌↔◌, IsTrue};
ghost use Rattle.std.specs.List.{list_any};
ghost use Rattle.task_rules.specs.Computed.{HaveNeighbours};

/// Whether the number is one of these.
pub(crate) fn is_among(numbers: &[u64], number: u64) -> bool
    ensures { result ≡ list_any (λ n. n == number) numbers.now }
{
    numbers.iter().any(|n| *n == number)
}

/// Whether the number after this one is one of these.
pub(crate) fn is_next_among(numbers: &[u64], number: u64) -> bool
    ensures { result ≡ list_any (λ n. n == number + 1) numbers.now }
{
    numbers.iter().any(|n| follows(number, *n))
}

/// Whether the second number is the one after the first.
fn follows(first: u64, second: u64) -> bool
    ensures { result ≡ (second == first + 1) }
{
    first < second && second - 1 == first
}

/// Whether two of the levels are neighbours.
pub(crate) fn have_neighbours(levels: &[u64]) -> bool
    ensures { IsTrue result ↔ HaveNeighbours levels.now }
{
    levels.iter().any(|l| is_next_among(levels, *l))
}
