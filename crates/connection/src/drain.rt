//! How a server ends a connection while its calls go on (RFC 9113, section 6.8).

ghost use Rattle.std.specs.Prelude.{◌≡◌, ◌<◌, IfOk};
ghost use Rattle.connection.specs.Begins.{IsUnused};

use callworker::SharedConn;
use connbook::{BookKey, ConnBook, DrainKey, OpenedBook};
use std::alloc::{AllocError, Global};
use std::sync::ledger::{Blank, Ledger, Share};
use std::sync::{Arc, Wait};

/// Ends one connection while its calls go on, from any thread.
#[derive(Drop)]
pub struct Drainer<A: Ledger, B: Ledger, C: Ledger> {
    shared: Arc<SharedConn<A, B, C>>,
    key: DrainKey,
}

/// What `serve_connection` takes so that a drainer can end the connection: what its threads share,
/// and the shares and keys of its credit book.
#[derive(Drop)]
pub struct DrainHandle<A: Ledger, B: Ledger, C: Ledger> {
    pub(crate) shared: Arc<SharedConn<A, B, C>>,
    pub(crate) came: Share<A>,
    pub(crate) calls: Share<B>,
    pub(crate) announced: Share<C>,
    pub(crate) reader_key: BookKey,
    pub(crate) writer_key: BookKey,
}

impl<A: Ledger, B: Ledger, C: Ledger> Drainer<A, B, C> {
    /// The drainer of a connection, and the handle with which the connection is served.
    pub fn new(
        alloc: Global,
        blanks: (Blank, Blank, Blank),
    ) -> Result<(Drainer<A, B, C>, DrainHandle<A, B, C>), AllocError>
        requires received { (blanks.0.name ≡ A.name) × (blanks.0.parts ≡ A.parts)
            × (0 < A.parts) }
        requires admitted { (blanks.1.name ≡ B.name) × (blanks.1.parts ≡ B.parts)
            × (0 < B.parts) }
        requires announced { (blanks.2.name ≡ C.name) × (blanks.2.parts ≡ C.parts)
            × (0 < C.parts) }
        ensures unused { IfOk result (λ made. IsUnused A.parts B.parts C.parts made.1) }
    {
        let (received, came) = blanks.0.open::<A>();
        let (admitted, calls) = blanks.1.open::<B>();
        let (announced, share) = blanks.2.open::<C>();
        let OpenedBook {
            book,
            reader_key,
            writer_key,
            drain_key,
        } = ConnBook::new(alloc, received, admitted, announced);
        let shared = SharedConn::new(alloc, book)?;
        let handle = DrainHandle {
            shared: Arc::try_clone(&shared)?,
            came,
            calls,
            announced: share,
            reader_key,
            writer_key,
        };
        let drainer = Drainer {
            shared,
            key: drain_key,
        };
        Ok((drainer, handle))
    }

    /// Admits no more calls. The writer warns the peer, and GOAWAY names the last call that goes
    /// on; the connection ends after the last of them. A second drain changes nothing.
    pub fn drain(&self, rt: &impl Wait) {
        self.shared.book.lock(rt).close(&self.key);
        self.shared.writer.ring();
    }

    /// Whether no call is live.
    pub fn is_idle(&self, rt: &impl Wait) -> bool {
        self.shared.book.lock(rt).live_id(0).is_none()
    }
}
