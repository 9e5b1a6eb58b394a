//! Texts of metadata, whose contracts see the list of their bytes.

ghost use Rattle.std.specs.Prelude.{◌≡◌, map, string_bytes};

use std::marker::Model;

/// Texts in order. A contract sees the list of their bytes.
#[derive(Debug, Drop)]
pub struct Texts {
    items: Vec<String>,
}

impl Model for Texts {
    ghost use Rattle.std.specs.Prelude.{List, ℕ, map, string_bytes};

    ghost Value = { List (List ℕ) };

    ghost view = { λ texts. map string_bytes texts.items.items };
}

impl Texts {
    /// The texts as a slice.
    pub fn as_slice(&self) -> &[String]
        ensures { map string_bytes result.now ≡ self.now }
    {
        self.items.as_slice()
    }

    /// The texts, with no memory taken.
    pub fn into_vec(self) -> Vec<String>
        ensures { map string_bytes result.items ≡ self }
    {
        let Texts { items } = self;
        items
    }
}

/// Takes no memory.
impl From<Vec<String>> for Texts {
    ghost use Rattle.std.specs.Prelude.{◌≡◌, map, string_bytes};

    ghost from_gives = { λ items texts. texts ≡ map string_bytes items.items };

    fn from(items: Vec<String>) -> Texts {
        Texts { items }
    }
}
