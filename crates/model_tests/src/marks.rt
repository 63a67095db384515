//! A probe that counts rows.
ghost use Rattle.std.specs.Prelude.{◌≡◌, ◌∷◌, [], ◌+ℤ◌, ◌≤◌, ℕ, pos, min, replicate, IfOk, slice_index_or};
ghost use Rattle.std.specs.Int.{int_gap};
ghost use Rattle.std.proofs.Common.{arith, lit≤};
ghost use Rattle.std.proofs.lemmas.List.{length-replicate};
ghost use Rattle.std.proofs.lemmas.List.Elements.{All-replicate};

use probes::{NoMemory, Numbers, Probe, Row};
use std::alloc::Global;
use std::test::Fail;

/// A count of the rows seen, which has no memory for more than `most` of them.
#[derive(Drop)]
pub(crate) struct Marks {
    pub(crate) rows: u8,
    pub(crate) most: u8,
}

/// So many signs, at most 200.
fn signs(alloc: Global, count: u8) -> Result<Vec<u8>, NoMemory>
    ensures { IfOk result (λ signs. signs.items ≡ replicate (min count 200) 35) }
{
    match vec![in alloc; b'#'; count.min(200) as usize] {
        Ok(signs) => Ok(signs),
        Err(_) => Err(NoMemory),
    }
}

impl Probe for Marks {
    ghost state = { λ m. pos m.rows ∷ [] };

    ghost next = { λ _ s row. (slice_index_or s 0 (pos 0) +ℤ pos 1) ∷ [] };

    ghost text = { λ _ s. replicate (min (int_gap (pos 0) (slice_index_or s 0 (pos 0))) 200) 35 };

    fn note(&mut self, _row: &Row) -> Result<(), NoMemory> {
        if self.rows >= self.most {
            return Err(NoMemory);
        }
        self.rows += 1;
        Ok(())
    }

    fn line(&self, alloc: Global) -> Result<Vec<u8>, NoMemory> {
        signs(alloc, self.rows)
    }

    ghost short = { λ p s. (Prim.rw length-replicate (Prim.omega arith), All-replicate (λ b. (0x20 ≤ b) × (b ≤ 0x7E)) _ 35 (lit≤ tt, lit≤ tt)) };
}

/// A row of these numbers.
fn row(values: Numbers) -> Row {
    Row {
        step: 1,
        keep: 0,
        material: 0,
        level: 0,
        y: 2,
        z: 3,
        values,
    }
}

/// Whether a probe notes the row once, and once more.
fn notes<P: Probe>(probe: &mut P, row: &Row) -> (bool, bool) {
    (probe.note(row).is_ok(), probe.note(row).is_ok())
}

#[test]
fn a_probe_notes_rows_until_memory_runs_out(rt: HostRuntime) -> Result<(), Fail> {
    let mut probe = Marks { rows: 0, most: 3 };
    let row = row(Numbers::from_vec(Vec::new(rt.alloc())));
    assert_eq!(rt; notes(&mut probe, &row), (true, true));
    assert_eq!(rt; notes(&mut probe, &row), (true, false));
    assert_eq!(rt; probe.line(rt.alloc())?.as_slice(), b"###".as_slice());
    Ok(())
}
