ghost use Rattle.std.specs.Prelude.{◌≡◌, ◌≤◌, ◌-◌, ◌++◌, ◌∷◌, true, false, replicate, IfOk};
ghost use Rattle.graph_types.specs.Graph.{IsValid};
ghost use Rattle.sched_core.specs.Sound.{IsSound};
ghost use Rattle.sched_core.specs.Start.{start, first_words};
ghost use Rattle.sched_core.specs.declared.view.View.TheVariants.{Idle, Unmade};

use crate::state::{Core, item_at};
use crate::view::View;
use graph_types::Graph;
use sqlite_items::Items;
use std::alloc::{AllocError, Global};

/// Memory ran out.
#[derive(Clone, Copy, Debug, PartialEq, Eq, Drop)]
pub struct NoMemory;

impl From<AllocError> for NoMemory {
    fn from(_: AllocError) -> NoMemory {
        NoMemory
    }
}

impl Core {
    /// The core at the start of a step, with so many seats.
    pub fn start(alloc: Global, graph: Graph, seats: u32) -> Result<Core, NoMemory>
        requires valid { IsValid graph }
        requires some_seat { 1 ≤ seats }
        requires few_seats { seats ≤ 64 }
        ensures state { IfOk result (λ c. c ≡ start graph seats) }
        ensures sound { IfOk result (λ c. IsSound c) }
    {
        let core = Core::at_start(alloc, graph, seats)?;
        Ok(core)
    }

    fn at_start(alloc: Global, graph: Graph, seats: u32) -> Result<Core, NoMemory>
        ensures { IfOk result (λ c. c ≡ start graph seats) }
    {
        let mut ring = first_words(alloc, &graph)?;
        let tail = ring.len() as u64;
        let rest = u64::from(graph.tasks).saturating_sub(tail);
        ring.append(repeated(alloc, 0, rest as usize)?)?;
        let dep = widened(alloc, graph.predecessors.as_slice())?;
        let published = repeated(alloc, 0, graph.tasks as usize)?;
        let left = widened(alloc, graph.uses.as_slice())?;
        let turn = repeated(alloc, 0, graph.slots as usize)?;
        let home = home_at_start(alloc, &graph)?;
        let views = views_at_start(alloc, seats)?;
        Ok(Core {
            graph,
            head: 0,
            tail,
            ring,
            dep,
            published,
            left,
            turn,
            done: 0,
            abort: 0,
            home,
            views,
        })
    }
}

/// The tasks that wait for no other, each with 1 added.
#[tactic(auto, using(crate::proofs::Starting::first_more, crate::proofs::Starting::first_skip))]
fn first_words(alloc: Global, graph: &Graph) -> Result<Items<u64>, NoMemory>
    ensures { IfOk result (λ words. words ≡ first_words graph.now) }
{
    let mut words = Items::new(alloc);
    for task in 0..graph.tasks {
        if item_at(&graph.predecessors, task, 0) == 0 {
            words.push(u64::from(task) + 1)?;
        }
    }
    Ok(words)
}

/// The old slots alone have their values.
fn home_at_start(alloc: Global, graph: &Graph) -> Result<Items<bool>, NoMemory>
    ensures { IfOk result (λ home. home ≡ replicate graph.now.old true ++ replicate (graph.now.slots - graph.now.old) false) }
{
    let mut home = repeated(alloc, true, graph.old as usize)?;
    let written = graph.slots.saturating_sub(graph.old);
    home.append(repeated(alloc, false, written as usize)?)?;
    Ok(home)
}

/// One seat is made.
fn views_at_start(alloc: Global, seats: u32) -> Result<Items<View>, NoMemory>
    ensures { IfOk result (λ views. views ≡ Idle ∷ replicate (seats - 1) Unmade) }
{
    let mut views = repeated(alloc, View::Idle, 1)?;
    let unmade = seats.saturating_sub(1);
    views.append(repeated(alloc, View::Unmade, unmade as usize)?)?;
    Ok(views)
}

/// The same item so many times.
#[tactic(auto, using(std::proofs::lemmas::Grind::replicate_next))]
fn repeated<T: Copy + Drop>(alloc: Global, item: T, count: usize) -> Result<Items<T>, NoMemory>
    ensures { IfOk result (λ items. items ≡ replicate count item) }
{
    let mut items = Items::new(alloc);
    for _added in 0..count {
        items.push(item)?;
    }
    Ok(items)
}

/// The same numbers as words.
fn widened(alloc: Global, numbers: &[u32]) -> Result<Items<u64>, NoMemory>
    ensures { IfOk result (λ words. words ≡ numbers.now) }
{
    let mut words = Items::new(alloc);
    for number in numbers {
        words.push(u64::from(*number))?;
    }
    Ok(words)
}
