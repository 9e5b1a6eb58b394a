//! What is known of a cell.
ghost use Rattle.std.specs.Prelude.{◌≡◌, true};
ghost use Rattle.lane.specs.Notes.{holds_item};

use once_cell::race::Note;

/// The knowledge that a cell holds an item, and which. It takes no bytes.
#[derive(Drop)]
pub(crate) struct KnownCell<T> {
    pub(crate) note: Note<Option<T>>,
    ghost holds: { holds_item note.known ≡ true },
}

impl<T: Drop> KnownCell<T> {
    ghost use Rattle.lane.specs.KnownCells.{cell_of, item_of};

    /// A copy of the knowledge.
    pub(crate) fn again(&mut self) -> KnownCell<T>
        ensures unchanged { (cell_of self.new ≡ cell_of self.old)
            × (item_of self.new ≡ item_of self.old) }
        ensures same { (cell_of result ≡ cell_of self.old) × (item_of result ≡ item_of self.old) }
    {
        let note = self.note.again();
        KnownCell { note }
    }
}
