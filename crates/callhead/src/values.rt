//! Values of metadata, whose contracts see the list of them.

ghost use Rattle.std.specs.Prelude.{◌≡◌};

use lists::Octets;
use std::marker::Model;

/// Values in order. A contract sees the list of them.
#[derive(Debug, Drop)]
pub struct Values {
    items: Vec<Octets>,
}

impl Model for Values {
    ghost use Rattle.std.specs.Prelude.{List, ℕ};

    ghost Value = { List (List ℕ) };

    ghost view = { λ values. values.items.items };
}

impl Values {
    /// The values as a slice.
    pub fn as_slice(&self) -> &[Octets]
        ensures { result.now ≡ self.now }
    {
        self.items.as_slice()
    }

    /// The values, with no memory taken.
    pub fn into_vec(self) -> Vec<Octets>
        ensures { result.items ≡ self }
    {
        let Values { items } = self;
        items
    }
}

/// Takes no memory.
impl From<Vec<Octets>> for Values {
    ghost use Rattle.std.specs.Prelude.{◌≡◌};

    ghost from_gives = { λ items values. values ≡ items.items };

    fn from(items: Vec<Octets>) -> Values {
        Values { items }
    }
}
