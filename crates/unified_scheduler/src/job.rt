ghost use Rattle.std.specs.Prelude.{◌≡◌, ℕ, ◌+◌, ◌<◌, Some, IfOk, length, slice_get};
ghost use Rattle.graph_types.specs.Content.{FitsSlot};
ghost use Rattle.graph_types.specs.Graph.{reads_of, writes_of};
ghost use Rattle.unified_scheduler.specs.Fitting.{AreFitting};

use graph_types::{NoMemory, Wants};

/// What computes the detailed tasks of a graph, each from the values of the slots that it reads. A worker calls `begin`, then `gather`
/// for each read in order, and then `run`.
pub trait Job: Wants {
    /// What a detailed task has gathered so far, with room for what it writes.
    type Work;

    /// Values that fit the first so many reads of a task were gathered into the work, in their order and no others.
    ghost filled: { Self → (task gathered : ℕ) → Self.Work → Type 0 };

    /// Takes all memory that a detailed task needs.
    fn begin(&self, task: u32) -> Result<Self::Work, NoMemory>
        requires { task < (Self.graph self.now).tasks }
        ensures { IfOk result (filled self.now task 0) };

    /// Gathers the value of the task's read number `k`, counted from 0. It takes no memory.
    fn gather(&self, task: u32, k: usize, value: &Self::Value, work: &mut Self::Work)
        requires filled { filled self.now task k work.old }
        requires fits { (slot : ℕ) × (slice_get (reads_of (Self.graph self.now) task) k ≡ Some slot)
            × FitsSlot Self.fits (Self.content self.now) slot value.now }
        ensures { filled self.now task (k + 1) work.new };

    /// Computes the values of the slots that the task writes, in their order. It takes no memory.
    fn run(&self, task: u32, work: Self::Work) -> Vec<Self::Value>
        requires { filled self.now task (length (reads_of (Self.graph self.now) task)) work }
        ensures { AreFitting Self.fits (Self.content self.now) (writes_of (Self.graph self.now) task) result.items };
}
