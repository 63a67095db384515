ghost use Rattle.std.specs.Prelude.{◌≡◌, ℕ, ℤ, List, Option, Some, IsSome, OnOk};

use probes::NoMemory;

/// A supplier of what the dump shows of a step: the rows of variables, and the numbers of reductions.
pub trait Rows {
    /// The numbers of each row that it has, by ascending x: by the variable's name, the material, the level, y and z.
    ghost rows: { Self → ℕ → ℕ → ℕ → ℤ → ℤ → Option (List ℤ) };

    /// The number of each reduction that it has, by name.
    ghost numbers: { Self → ℕ → Option ℤ };

    /// Replaces `out` by the numbers of a row that it has.
    fn row(
        &mut self,
        name: u32,
        material: u32,
        level: u32,
        y: i64,
        z: i64,
        out: &mut Vec<i64>,
    ) -> Result<(), NoMemory>
        requires { IsSome (rows self.old name material level y z) }
        ensures row { OnOk result (rows self.old name material level y z ≡ Some out.new.items) }
        ensures same_rows { rows self.new ≡ rows self.old }
        ensures same_numbers { numbers self.new ≡ numbers self.old };

    /// The number of a reduction that it has.
    fn number(&self, name: u32) -> i64
        requires { IsSome (numbers self.now name) }
        ensures { numbers self.now name ≡ Some result };
}
