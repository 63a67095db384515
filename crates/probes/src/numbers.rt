ghost use Rattle.std.specs.Prelude.{◌≡◌};

use std::marker::Model;

/// Numbers in order: a `Vec` that contracts see as the list of its items.
#[derive(Debug, Drop)]
pub struct Numbers {
    items: Vec<i64>,
}

impl Model for Numbers {
    ghost use Rattle.std.specs.Prelude.{ℤ, List};
    ghost use Rattle.std.specs.Coded.{codes};

    ghost Value = { List ℤ };

    ghost coded = { Prim.hlevel codes };

    ghost view = { λ n. n.items.items };
}

impl Numbers {
    /// The numbers of a `Vec`.
    pub fn from_vec(items: Vec<i64>) -> Numbers
        ensures { result ≡ items.items }
    {
        Numbers { items }
    }

    /// The `Vec` of the numbers.
    pub fn into_vec(self) -> Vec<i64>
        ensures { result.items ≡ self }
    {
        self.items
    }

    pub fn as_slice(&self) -> &[i64]
        ensures { result.now ≡ self.now }
    {
        self.items.as_slice()
    }
}
