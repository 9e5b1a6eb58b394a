//! A lane over a row of cells, each of which is set once.
//!
//! Notes of cells say that two looks at a cell agree, but not that only the writer sets cells. By
//! the marks no more is got than was put, without a premise.
ghost use Rattle.std.specs.Prelude.{◌≡◌, ℕ, ◌+◌, ◌≤◌, length, take, vec_len, vec_capacity};
ghost use Rattle.std.specs.Arc.{arc_value};
ghost use Rattle.rtrb.specs.Ring.{sent, known_free, producer_capacity, received};
ghost use Rattle.lane.specs.KnownCells.{names_of, cells_of};
ghost use Rattle.lane.specs.Lawful.{last_count};

mod cells;
mod known_cell;

use crate::fault::PutFault;
use crate::lane::{End, Lane, Settled};
use cells::{Cells, compare, item_at, look_at, set_at, unset_cells};
use known_cell::KnownCell;
use rtrb::{Consumer, Producer, RingBuffer};
use std::alloc::{AllocError, Global};
use std::marker::PhantomData;
use std::sync::Arc;

/// The writing end of a `RowLane`.
#[derive(Drop)]
pub struct RowLaneIn<T> {
    cells: Arc<Cells<T>, Global>,
    put: Vec<KnownCell<T>>,
    // The box of the last item.
    spare: Box<Option<T>>,
    alloc: Global,
    room: usize,
    marks: Producer<u8>,
    ghost row: { vec_len (arc_value cells) ≡ room + 1 },
    ghost within: { vec_len put ≤ room },
    ghost kept: { room + 1 ≤ vec_capacity put },
    ghost in_order: { cells_of put.items ≡ take (vec_len put) (names_of (arc_value cells).items) },
    ghost slots: { producer_capacity marks ≡ room + 1 },
    ghost marked: { length (sent marks) ≡ vec_len put },
    ghost unmarked: { room + 1 ≤ known_free marks + vec_len put },
}

/// What is left of the writing end after `last`.
#[derive(Drop)]
pub struct RowLaneShut<T> {
    cells: Arc<Cells<T>, Global>,
    put: Vec<KnownCell<T>>,
    placed: bool,
    marks: Producer<u8>,
    ghost within: { vec_len put + 1 ≤ producer_capacity marks + last_count placed },
    ghost in_order: { cells_of put.items ≡ take (vec_len put) (names_of (arc_value cells).items) },
    ghost marked: { length (sent marks) ≡ vec_len put },
}

/// The reading end of a `RowLane`.
#[derive(Drop)]
pub struct RowLaneOut<T> {
    cells: Arc<Cells<T>, Global>,
    got: Vec<KnownCell<T>>,
    marks: Consumer<u8>,
    // How many marks were popped.
    marked: usize,
    ghost kept: { vec_len (arc_value cells) ≤ vec_capacity got },
    ghost in_order: { cells_of got.items ≡ take (vec_len got) (names_of (arc_value cells).items) },
    ghost popped: { marked ≡ length (received marks) },
    ghost behind: { vec_len got ≤ marked },
}

/// A lane over `room + 1` cells, each of which is set once. So it is full forever once `room` items
/// were put.
///
/// Each end keeps a note of each cell that it set or saw set, and notes of one cell agree. Beside
/// the cells is a ring of marks: the writer pushes one after it sets a cell, and the reader pops
/// one before it looks at the cell. So no more is got than was put.
pub struct RowLane<T> {
    marker: PhantomData<T>,
}

#[tactic(auto, using(crate::proofs::KnownItems::length_items_of))]
impl<T: Send + Sync + Drop> Lane for RowLane<T> {
    ghost use Rattle.std.specs.Prelude.{[], ◌∷◌, ◌++◌, ⊤};
    ghost use Rattle.lane.specs.End.{of_end, has_last};
    ghost use Rattle.lane.specs.Lawful.{IsLawful, count_of};
    ghost use Rattle.lane.specs.RowLane.{
      RowName,
      RowName_set,
      room_of,
      in_name,
      shut_name,
      out_name,
      put_in,
      put_shut,
      was_placed,
      got,
    };

    type Item = T;

    type In = RowLaneIn<T>;

    type Out = RowLaneOut<T>;

    type Shut = RowLaneShut<T>;

    ghost Name = { RowName };

    ghost name_set = { RowName_set };

    ghost in_name = { in_name };

    ghost out_name = { out_name };

    ghost shut_name = { shut_name };

    ghost room_of = { room_of };

    ghost put_in = { put_in };

    ghost put_shut = { put_shut };

    ghost was_placed = { was_placed };

    ghost seen_taken = { λ _. 0 };

    ghost got = { got };

    ghost ahead = { λ _. [] };

    ghost WantsMemory = { λ _. ⊤ };

    ghost MayMiss = { ⊤ };

    fn open(alloc: Global, room: usize) -> Result<(RowLaneIn<T>, RowLaneOut<T>), AllocError> {
        let count = room.checked_add(1).ok_or(AllocError)?;
        let cells = Arc::new(alloc, unset_cells(alloc, count)?)?;
        let their_cells = Arc::try_clone(&cells)?;
        let put = Vec::with_capacity(alloc, count)?;
        let got = Vec::with_capacity(alloc, count)?;
        let spare = Box::new(alloc, None)?;
        let (marks, their_marks) = RingBuffer::new(alloc, count)?;
        let tx = RowLaneIn {
            cells,
            put,
            spare,
            alloc,
            room,
            marks,
        };
        let rx = RowLaneOut {
            cells: their_cells,
            got,
            marks: their_marks,
            marked: 0,
        };
        Ok((tx, rx))
    }

    fn check_room(tx: &mut RowLaneIn<T>) -> Result<(), u64> {
        if tx.put.len() < tx.room {
            Ok(())
        } else {
            Err(tx.room as u64)
        }
    }

    fn put(tx: &mut RowLaneIn<T>, item: T) -> Result<(), PutFault<T>> {
        let at = tx.put.len();
        if at == tx.room {
            let waiting = at as u64;
            return Err(PutFault::Full { item, waiting });
        }
        let item = match Box::new(tx.alloc, Some(item)) {
            Ok(item) => item,
            Err(failed) => match failed.value {
                Some(item) => return Err(PutFault::OutOfMemory(item)),
                None => unreachable!(),
            },
        };
        match set_at(&tx.cells, at, item) {
            Ok(known) => {
                tx.put.push_reserved(known);
                tx.marks.push_reserved(1);
                Ok(())
            }
            Err(back) => match Box::into_inner(back) {
                Some(item) => Err(PutFault::NotTaken(item)),
                None => unreachable!(),
            },
        }
    }

    fn last(tx: RowLaneIn<T>, item: T) -> RowLaneShut<T> {
        let RowLaneIn {
            cells,
            mut put,
            mut spare,
            alloc: _,
            room: _,
            mut marks,
        } = tx;
        *spare = Some(item);
        let placed = match set_at(&cells, put.len(), spare) {
            Ok(known) => {
                put.push_reserved(known);
                marks.push_reserved(1);
                true
            }
            Err(_) => false,
        };
        RowLaneShut {
            cells,
            put,
            placed,
            marks,
        }
    }

    fn placed(shut: &RowLaneShut<T>) -> bool {
        shut.placed
    }

    fn poll(rx: &mut RowLaneOut<T>) -> Option<&T> {
        let at = rx.got.len();
        if at >= rx.cells.len() {
            return None;
        }
        if at == rx.marked {
            if rx.marks.pop().is_err() {
                return None;
            }
            rx.marked += 1;
        }
        let mut known = look_at(&rx.cells, at)?;
        let again = known.again();
        rx.got.push_reserved(known);
        Some(item_at(&rx.cells, at, again))
    }

    fn polled(rx: &mut RowLaneOut<T>) -> Option<&T> {
        let mut last = rx.got.pop()?;
        let same = last.again();
        let index = rx.got.len();
        rx.got.push_reserved(last);
        Some(item_at(&rx.cells, index, same))
    }

    fn settle(end: End<RowLaneIn<T>, RowLaneShut<T>>, rx: RowLaneOut<T>) -> Settled
        requires { of_end in_name shut_name end ≡ out_name rx }
        ensures put { result.put ≡ count_of (of_end put_in put_shut end) }
        ensures got { result.got ≡ count_of (got rx) }
        ensures left { length (of_end put_in put_shut end) ≡ length (got rx) + result.left }
        ensures lawful { IsLawful (room_of (out_name rx)) (has_last was_placed end)
            (of_end put_in put_shut end) (got rx) }
    {
        let RowLaneOut {
            cells: _,
            got,
            marks: mut their_marks,
            marked: _,
        } = rx;
        let (put, mut marks) = match end {
            End::Open(tx) => {
                let RowLaneIn {
                    cells: _,
                    put,
                    spare: _,
                    alloc: _,
                    room: _,
                    marks,
                } = tx;
                (put, marks)
            }
            End::Shut(shut) => {
                let RowLaneShut {
                    cells: _,
                    put,
                    placed: _,
                    marks,
                } = shut;
                (put, marks)
            }
        };
        their_marks.slots_beside(&mut marks);
        compare(put, got)
    }
}
