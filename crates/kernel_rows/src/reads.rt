ghost use Rattle.std.specs.Prelude.{◌≡◌, ℕ, ℤ, length, map};
ghost use Rattle.std.specs.Int.{int_gap};
ghost use Rattle.kernel_ast.specs.declared.expression.Store.{Store};
ghost use Rattle.kernel_ast.specs.declared.expression.Read.{Read};
ghost use Rattle.uts_geom.specs.declared.index.Index.{Index};
ghost use Rattle.kernel_rows.specs.Values.{indexes_on};

use crate::KernelRow;
use kernel_ast::{Read, Store};

/// What gives the reads of kernels their numbers.
pub trait Reads {
    /// The number of each read, from a kernel at an index.
    ghost numbers: { Self → Read → Index → ℤ };

    /// The number of each reduction, by store and name.
    ghost reductions: { Self → Store → ℕ → ℤ };

    /// Fills `out`, which has a place for each index of the row, with the read's numbers.
    fn fill(&self, read: &Read, row: KernelRow, out: &mut [i64])
        requires { length out.old ≡ int_gap row.low row.high }
        ensures { out.new ≡ map (numbers self.now read.now) (indexes_on row) };

    /// The number of a reduction.
    fn number(&self, store: Store, name: u32) -> i64
        ensures { result ≡ reductions self.now store name };
}
