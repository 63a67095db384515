//! Tables by number, with how often each number stands in some lists.
ghost use Rattle.std.specs.Prelude.{◌≡◌, ◌≤◌, ◌<◌, ◌+◌, ℕ, IfOk, All, cond, length, slice_index};
ghost use Rattle.graph_types.specs.Graph.{IsSlotList, has};
ghost use Rattle.graph_types.specs.Parts.{AreCounts, StandOnce};

use crate::NoMemory;
use sqlite_items::Items;
use std::alloc::Global;

/// Counts each of the numbers once more.
pub(crate) fn raise(counts: &mut [u32], numbers: &[u32])
    requires once { StandOnce numbers.now }
    requires within { All (λ n. n < length counts.old) numbers.now }
    requires few { All (λ n. n ≤ 65536) counts.old }
    ensures { (n : ℕ) → n < length counts.old → slice_index counts.new n ≡ slice_index counts.old n + cond (has numbers.now n) 1 0 }
{
    for n in numbers {
        counts[*n as usize] += 1;
    }
}

/// In how many of the lists each slot stands.
pub(crate) fn counts(alloc: Global, slots: u32, lists: &[Items<u32>]) -> Result<Vec<u32>, NoMemory>
    requires listed { All (IsSlotList slots) lists.now }
    requires few { length lists.now ≤ 65536 }
    ensures { IfOk result (λ counts. AreCounts slots lists.now counts.items) }
{
    let mut counts = vec![in alloc; 0; slots as usize]?;
    for numbers in lists {
        raise(&mut counts, numbers.as_slice());
    }
    Ok(counts)
}
