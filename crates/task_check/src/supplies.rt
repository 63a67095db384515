//! Whether a task requires what the kernels of its lines read.
ghost use Rattle.std.specs.Prelude.{ℕ, ◌≡◌, ◌≤◌, ◌↔◌, IsTrue, All, Any};
ghost use Rattle.kernel_ast.specs.declared.expression.Store.{Store};
ghost use Rattle.kernel_ast.specs.declared.expression.Read.{Read};
ghost use Rattle.problem_types.specs.declared.problem.What.TheVariants as what;
ghost use Rattle.ghost_rules.specs.Windows.{AreFewSeen};
ghost use Rattle.task_check.specs.Supplies.{seen_of, kernel_centring, layers_of, SuppliesFew, IsNumberSupplied, IsAllSupplied};

use ghost_rules::{Seen, offset_allowed};
use kernel_ast::{How, Read, Store};
use problem_lookup::centring_of;
use problem_types::{Ghost, GhostKind, Problem, Require, Task, What, Write, WriteKind};
use task_rules::{ReadRule, allows_all, has_modifies};
use uts_geom::Centring;

/// What a task sees of a variable that it requires on its own level.
pub fn seen_of(t: &Task, name: u32, store: Store, layers: Ghost) -> Seen
    ensures { result ≡ seen_of t.now name store layers }
{
    let without_ghosts = store == Store::New && layers.kind == GhostKind::None;
    if without_ghosts && has_modifies(t.writes.as_slice(), name) {
        Seen::Own
    } else {
        Seen::Ghosted(layers)
    }
}

/// Where the kernel of a line runs.
pub fn kernel_centring(p: &Problem, w: &Write) -> Centring
    ensures { result ≡ kernel_centring p.now w.now }
{
    match w.kind {
        WriteKind::Computes | WriteKind::Modifies => centring_of(p, w.name),
        WriteKind::Reduces(c) => c,
    }
}

/// How many layers of ghost data are asked for.
pub(crate) fn layers_of(what: What) -> u64
    ensures { result ≡ layers_of what }
{
    match what {
        What::Same { layers, .. } | What::Coarse { layers, .. } => layers.n,
        What::Fine { .. } | What::Number { .. } => 0,
    }
}

/// Whether the requirement, of at most 8 layers, supplies the read to a kernel of this centring.
fn supplies(p: &Problem, t: &Task, kernel: Centring, read: Read, q: Require) -> bool
    ensures { IsTrue result ↔ SuppliesFew p.now t.now kernel read q }
{
    if q.store != read.store || layers_of(q.what) > 8 {
        return false;
    }
    let c = centring_of(p, read.name);
    match (read.how, q.what) {
        (How::Same, What::Same { var, layers }) => {
            let seen = seen_of(t, read.name, read.store, layers);
            var == read.name && offset_allowed(seen, c, kernel, read.offset)
        }
        (How::Coarse, What::Coarse { var, layers }) => {
            var == read.name && offset_allowed(Seen::Ghosted(layers), c, kernel, read.offset)
        }
        (How::FineSum | How::FineMin | How::FineMax | How::FineCount, What::Fine { var }) => {
            var == read.name && c == kernel
        }
        _ => false,
    }
}

/// Whether the requirement is of this reduction.
fn is_of_number(q: Require, store: Store, name: u32) -> bool
    ensures { IsTrue result ↔ ((q.store ≡ store) × (q.what ≡ what.Number name)) }
{
    q.store == store && q.what == What::Number { name }
}

/// The reads that a kernel of this centring may make in a task.
#[derive(Clone, Copy)]
struct KernelReads<'a> {
    problem: &'a Problem,
    task: &'a Task,
    kernel: Centring,
}

impl ReadRule for KernelReads<'_> {
    ghost allows = { λ s r. Any (SuppliesFew s.problem.now s.task.now s.kernel r) s.task.now.requirements };

    ghost allows_number = { λ s store name. IsNumberSupplied s.task.now (store, name) };

    fn allows(&self, read: &Read) -> bool {
        let requirements = self.task.requirements.as_slice();
        requirements.iter().any(|q| supplies(self.problem, self.task, self.kernel, *read, *q))
    }

    fn allows_number(&self, store: Store, name: u32) -> bool {
        self.task
            .requirements
            .as_slice()
            .iter()
            .any(|q| is_of_number(*q, store, name))
    }
}

/// Whether the task requires all that the kernel of its line reads, as far as it reads.
pub(crate) fn is_all_supplied(problem: &Problem, task: &Task, write: &Write) -> bool
    requires { All (λ q. layers_of q.what ≤ 8) task.now.requirements }
    ensures { IsTrue result ↔ IsAllSupplied problem.now task.now write.now }
{
    let kernel = kernel_centring(problem, write);
    let reads = KernelReads {
        problem,
        task,
        kernel,
    };
    allows_all(&reads, &write.expr)
}
