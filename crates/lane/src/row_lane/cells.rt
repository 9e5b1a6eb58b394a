//! Steps on a row of cells, each of which is set once.
ghost use Rattle.std.specs.Prelude.{
  ◌≡◌,
  ◌+◌,
  ◌<◌,
  ◌≤◌,
  [],
  ◌∷◌,
  true,
  length,
  vec_len,
  slice_index,
  take,
  IfOk,
  IfErr,
  IfSome,
  Some,
};
ghost use mathlib.Core.List.{IsPrefix};
ghost use Rattle.once_cell.specs.Once.{cell_name};
ghost use Rattle.lane.specs.Notes.{known_item, holds_item};
ghost use Rattle.lane.specs.Lawful.{count_of};
ghost use Rattle.lane.specs.KnownCells.{names_of, cell_of, item_of, cells_of, items_of};

use super::known_cell::KnownCell;
use crate::lane::Settled;
use once_cell::race::OnceBox;
use std::alloc::{AllocError, Global};

/// An item is in an `Option`, so that the box of the last item can be made before the item.
pub(crate) type Cells<T> = Vec<OnceBox<Option<T>>>;

/// `count` cells that aren't set.
pub(crate) fn unset_cells<T: Drop>(alloc: Global, count: usize) -> Result<Cells<T>, AllocError>
    ensures { IfOk result (λ cells. vec_len cells ≡ count) }
{
    let mut cells = Vec::with_capacity(alloc, count)?;
    for _ in 0..count {
        cells.push(OnceBox::new(alloc))?;
    }
    Ok(cells)
}

fn cell_at<T>(cells: &Cells<T>, at: usize) -> &OnceBox<Option<T>>
    requires { at < vec_len cells.now }
    ensures { cell_name result.now ≡ slice_index (names_of cells.now.items) at }
{
    &cells[at]
}

/// Sets a cell to an item, or hands the box back.
pub(crate) fn set_at<T: Drop>(
    cells: &Cells<T>,
    at: usize,
    item: Box<Option<T>>,
) -> Result<KnownCell<T>, Box<Option<T>>>
    requires at { at < vec_len cells.now }
    requires holds { holds_item (Some item.value) ≡ true }
    ensures cell { IfOk result
        (λ known. cell_of known ≡ slice_index (names_of cells.now.items) at) }
    ensures item { IfOk result (λ known. item_of known ≡ known_item (Some item.value)) }
    ensures handed_back { IfErr result (λ back. back.value ≡ item.value) }
{
    let cell = cell_at(cells, at);
    let mut note = cell.note();
    cell.set_as(item, &mut note)?;
    Ok(KnownCell { note })
}

/// Looks whether a cell holds an item.
pub(crate) fn look_at<T: Drop>(cells: &Cells<T>, at: usize) -> Option<KnownCell<T>>
    requires { at < vec_len cells.now }
    ensures { IfSome result (λ known. cell_of known ≡ slice_index (names_of cells.now.items) at) }
{
    let cell = cell_at(cells, at);
    let mut note = cell.note();
    match cell.get_as(&mut note) {
        Some(Some(_)) => Some(KnownCell { note }),
        _ => None,
    }
}

/// The item of a cell that holds one.
pub(crate) fn item_at<T: Drop>(cells: &Cells<T>, at: usize, known: KnownCell<T>) -> &T
    requires at { at < vec_len cells.now }
    requires cell { cell_of known ≡ slice_index (names_of cells.now.items) at }
    ensures { item_of known ≡ result.now ∷ [] }
{
    let cell = cell_at(cells, at);
    let KnownCell { mut note } = known;
    match cell.get_as(&mut note) {
        Some(Some(item)) => item,
        _ => unreachable!(),
    }
}

/// Two ends that know of equal cells know equal items.
pub(crate) fn agree<T: Drop>(mut one: Vec<KnownCell<T>>, mut other: Vec<KnownCell<T>>)
    requires { cells_of other.items ≡ cells_of one.items }
    ensures { items_of other.items ≡ items_of one.items }
{
    while let (Some(mine), Some(theirs)) = (one.pop(), other.pop()) {
        let KnownCell { mut note } = mine;
        let KnownCell { note: their_note } = theirs;
        note.compare(their_note);
    }
}

/// Compares what two ends know of one row of cells.
#[tactic(auto, using(crate::proofs::KnownItems::length_items_of, crate::proofs::KnownItems::prefix_of_known))]
pub(crate) fn compare<T: Drop>(mut put: Vec<KnownCell<T>>, got: Vec<KnownCell<T>>) -> Settled
    requires fewer { vec_len got ≤ vec_len put }
    requires cells { cells_of got.items ≡ take (vec_len got) (cells_of put.items) }
    ensures put { result.put ≡ count_of (items_of put.items) }
    ensures got { result.got ≡ count_of (items_of got.items) }
    ensures left { length (items_of put.items) ≡ length (items_of got.items) + result.left }
    ensures begins { IsPrefix (items_of got.items) (items_of put.items) }
{
    let settled = Settled {
        put: put.len() as u64,
        got: got.len() as u64,
        left: (put.len() - got.len()) as u64,
    };
    put.truncate(got.len());
    agree(put, got);
    settled
}
