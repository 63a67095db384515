//! What a step wants in its slots, at one type of values.
ghost use Rattle.std.specs.Prelude.{◌≡◌, ◌∷◌, [], map, IfSome};
ghost use Rattle.graph_types.specs.Content.{FitsSlot};

use crate::graphs::{DIAMOND, graph};
use graph_types::{Graph, Wants};
use sqlite_items::Items;
use std::alloc::Global;
use std::test::Fail;

/// A graph with one number wanted in each slot.
#[derive(Drop)]
struct Labels {
    graph: Graph,
    numbers: Items<i64>,
}

impl Wants for Labels {
    type Value = i64;

    ghost graph = { λ labels. labels.graph };

    ghost content = { λ labels. map (λ n. n ∷ []) labels.numbers };

    ghost fits = { λ list value. list ≡ value ∷ [] };
}

/// Hands a slot's value on.
fn handed<W: Wants>(wants: &W, slot: u32, value: W::Value) -> (&W, u32, W::Value)
    requires { FitsSlot W.fits (W.content wants.now) slot value }
    ensures { FitsSlot W.fits (W.content wants.now) slot result.2 }
{
    (wants, slot, value)
}

/// The second label.
fn second(labels: &Labels) -> Option<i64>
    ensures { IfSome result (λ n. FitsSlot ⟦<Labels as Wants>⟧.fits (⟦<Labels as Wants>⟧.content labels.now) 1 n) }
{
    let n = *labels.numbers.get(1)?;
    Some(handed(labels, 1, n).2)
}

fn five_labels(alloc: Global) -> Result<Labels, Fail> {
    Ok(Labels {
        graph: graph(alloc, DIAMOND)?,
        numbers: Items::from_slice(alloc, &[5, 7, 7, 8, 9])?,
    })
}

#[test]
fn a_number_fits_its_slot(rt: HostRuntime) -> Result<(), Fail> {
    let labels = five_labels(rt.alloc())?;
    assert_eq!(rt; second(&labels), Some(7));
    Ok(())
}
