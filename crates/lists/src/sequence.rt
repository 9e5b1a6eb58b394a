//! Items in order.

ghost use Rattle.std.specs.Prelude.{◌≡◌, ◌==◌, length, IfOk};

use crate::field::Field;
use std::alloc::AllocError;
use std::marker::Model;

/// Items in order. A contract sees the list of them.
#[derive(Debug, Drop)]
pub struct Sequence<T> {
    items: Vec<T>,
}

impl<T> Model for Sequence<T> {
    ghost use Rattle.std.specs.Prelude.{List};

    ghost Value = { List T };

    ghost view = { λ sequence. sequence.items.items };
}

impl<T> Sequence<T> {
    /// The items as a slice.
    pub fn as_slice(&self) -> &[T]
        ensures { result.now ≡ self.now }
    {
        self.items.as_slice()
    }

    /// How many items there are.
    pub fn len(&self) -> usize
        ensures { result ≡ length self.now }
    {
        self.items.len()
    }

    /// Whether there are none.
    pub fn is_empty(&self) -> bool
        ensures { result ≡ (length self.now == 0) }
    {
        self.items.is_empty()
    }

    /// The items, with no memory taken.
    pub fn into_vec(self) -> Vec<T>
        ensures { result.items ≡ self }
    {
        let Sequence { items } = self;
        items
    }
}

impl Sequence<Field> {
    /// A copy of the fields, in memory of its own.
    pub fn copy(&self) -> Result<Sequence<Field>, AllocError>
        ensures { IfOk result (λ copy. copy ≡ self.now) }
    {
        Ok(Sequence {
            items: self.items.clone()?,
        })
    }
}

/// The items, with no memory taken.
impl<T> From<Vec<T>> for Sequence<T> {
    ghost use Rattle.std.specs.Prelude.{◌≡◌};

    ghost from_gives = { λ items sequence. sequence ≡ items.items };

    fn from(items: Vec<T>) -> Sequence<T> {
        Sequence { items }
    }
}
