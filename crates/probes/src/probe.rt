ghost use Rattle.std.specs.Prelude.{◌≡◌, ℕ, ℤ, List, OnOk, OnErr, IfOk};
ghost use Rattle.probes.specs.declared.row.Row.{Row};
ghost use Rattle.probes.specs.Watching.{IsShortText};

use crate::Row;
use std::alloc::Global;

/// Memory ran out.
#[derive(Clone, Copy, Debug, PartialEq, Eq)]
pub struct NoMemory;

/// What watches the rows of a run. Its state is a list of whole numbers.
pub trait Probe: Drop {
    ghost state: { Self → List ℤ };

    /// The state after one row more, which follows from the state and the row.
    ghost next: { Self → List ℤ → Row → List ℤ };

    /// What the probe says of a state.
    ghost text: { Self → List ℤ → List ℕ };

    /// Looks at one row more.
    fn note(&mut self, row: &Row) -> Result<(), NoMemory>
        ensures noted { OnOk result (state self.new ≡ next self.old (state self.old) row.now) }
        ensures unchanged { OnErr result (state self.new ≡ state self.old) }
        ensures same_next { next self.new ≡ next self.old }
        ensures same_text { text self.new ≡ text self.old };

    /// The probe's text, without a line feed.
    fn line(&self, alloc: Global) -> Result<Vec<u8>, NoMemory>
        ensures { IfOk result (λ line. line.items ≡ text self.now (state self.now)) };

    /// A text has at most 200 bytes, each from a space to a tilde.
    ghost short: { (p : Self) (s : List ℤ) → IsShortText (text p s) };
}
