//! Probes that note a row.
ghost use Rattle.std.specs.Prelude.{◌≡◌, ◌∷◌, [], map, OnOk, OnErr};
ghost use Rattle.probes.specs.Watching.{Meaning, after_rows};
ghost use Rattle.dump_text.specs.Showing.{Notes};

use probes::{NoMemory, Probe, Row};

/// Has one probe note the row.
fn note_one(probe: &mut Box<dyn Probe>, row: &Row) -> Result<(), NoMemory>
    ensures noted { OnOk result (record { state = state probe.new; next = next probe.new; text = text probe.new }
        ≡ after_rows (row.now ∷ []) (record { state = state probe.old; next = next probe.old; text = text probe.old })) }
    ensures unchanged { OnErr result (record { state = state probe.new; next = next probe.new; text = text probe.new }
        ≡ (let same : Meaning = record { state = state probe.old; next = next probe.old; text = text probe.old } in same)) }
{
    probe.note(row)
}

/// Has each probe note the row, in the order of the list, until one has no memory.
pub(crate) fn note_all(probes: &mut Vec<Box<dyn Probe>>, row: &Row) -> Result<(), NoMemory>
    ensures { Notes (map (λ b. record { state = state b; next = next b; text = text b }) probes.old.items)
        (map (λ b. record { state = state b; next = next b; text = text b }) probes.new.items) result row.now }
{
    for probe in probes.iter_mut() {
        note_one(probe, row)?;
    }
    Ok(())
}
