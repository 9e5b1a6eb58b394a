//! Who may do what to the book of a connection.
//!
//! A method of `ConnBook` that ends a call takes a key. `ConnBook::new` makes two, and the cores
//! that read and write (`readerloop`, `writerloop`) keep them to themselves. So a call is ended
//! where their contracts say so, and nowhere else. A third is the drainer's, a fourth each worker's.

ghost use Rattle.std.specs.Prelude.{◌≡◌};

use h2frame::StreamId;

/// The right to end calls in the book, and to stop it.
#[derive(Drop)]
pub struct BookKey {
    made_here: (),
}

impl BookKey {
    pub(crate) fn new() -> BookKey {
        BookKey { made_here: () }
    }

    /// The key of one call, for its worker.
    pub fn of_call(&self, id: StreamId) -> CallKey
        ensures { result.id ≡ id }
    {
        CallKey { id }
    }
}

/// The right to let no more calls be admitted.
#[derive(Drop)]
pub struct DrainKey {
    made_here: (),
}

impl DrainKey {
    pub(crate) fn new() -> DrainKey {
        DrainKey { made_here: () }
    }
}

/// The right of a worker to return the bytes of its call, and to leave it.
#[derive(Drop)]
pub struct CallKey {
    pub(crate) id: StreamId,
}

impl CallKey {
    /// The stream of the call.
    pub fn id(&self) -> StreamId
        ensures { result ≡ self.now.id }
    {
        self.id
    }
}
