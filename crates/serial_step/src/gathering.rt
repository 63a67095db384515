//! The values that a task reads, handed to its job.
ghost use Rattle.std.specs.Prelude.{◌≡◌, ◌+◌, ◌<◌, ℕ, Some, length, slice_get};
ghost use Rattle.graph_types.specs.Graph.{reads_of};
ghost use Rattle.serial_step.specs.Filled.{IsFilled};

use unified_scheduler::Job;

/// The value in the place of a slot.
fn value_in<V>(places: &[Option<V>], slot: u32) -> &V
    requires { (value : _) × (slice_get places.now slot ≡ Some (Some value)) }
    ensures { slice_get places.now slot ≡ Some (Some result.now) }
{
    match &places[slot as usize] {
        Some(value) => value,
        None => unreachable!(),
    }
}

/// Has the job gather the value of the task's read number `k`, which is this slot's.
fn gather_one<J: Job>(
    job: &J,
    task: u32,
    k: usize,
    slot: u32,
    places: &[Option<J::Value>],
    work: &mut J::Work,
)
    requires filled { J.filled job.now task k work.old }
    requires read { slice_get (reads_of (J.graph job.now) task) k ≡ Some slot }
    requires there { IsFilled J.fits (J.content job.now) places.now slot }
    ensures { J.filled job.now task (k + 1) work.new }
{
    job.gather(task, k, value_in(places, slot), work);
}

/// Has the job gather the values of all slots that the task reads, in their order.
pub(crate) fn gather_all<J: Job>(
    job: &J,
    task: u32,
    reads: &[u32],
    places: &[Option<J::Value>],
    work: &mut J::Work,
)
    requires filled { J.filled job.now task 0 work.old }
    requires reads { reads.now ≡ reads_of (J.graph job.now) task }
    requires there { (k slot : ℕ) → slice_get reads.now k ≡ Some slot → IsFilled J.fits (J.content job.now) places.now slot }
    ensures { J.filled job.now task (length reads.now) work.new }
{
    for (k, slot) in reads.iter().enumerate() {
        gather_one(job, task, k, *slot, places, work);
    }
}
