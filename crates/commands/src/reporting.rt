//! Reports on a connection and its calls, in lines that the log's thread prints. So the reporting
//! thread waits for no other.

use crate::log::Log;
use crate::stopping::Connection;
use crate::stream::EndedConn;
use connection::CallAccount;
use handlers::Methods;
use std::alloc::{AllocError, Global};
use std::sync::{Arc, Wait};
use std::time::Clock;

/// Reports on a connection and its calls. The code that serves it has the type as a parameter, like
/// a `Witness`.
pub trait Report: Drop {
    /// A second handle of this connection.
    fn try_clone(&self) -> Result<Self, AllocError>;

    /// A call was settled.
    fn call(&self, rt: &(impl Wait + Clock), alloc: Global, call: &CallAccount);
}

/// Reports on a connection and its calls in the lines of a log.
#[derive(Drop)]
pub struct Reporting {
    log: Arc<Log>,
    methods: Arc<Methods>,
    connection: Connection,
}

impl Reporting {
    /// The reports of this connection, whose calls these methods answer.
    pub fn new(
        log: &Arc<Log>,
        methods: &Arc<Methods>,
        connection: Connection,
    ) -> Result<Reporting, AllocError> {
        Ok(Reporting {
            log: Arc::try_clone(log)?,
            methods: Arc::try_clone(methods)?,
            connection,
        })
    }

    /// The connection has ended, and its calls were reported on. Its bytes are in the file, if
    /// there is one.
    // (kept out of its caller, whose frame is on the stack of each connection that lives)
    #[inline(never)]
    pub fn end(
        &self,
        rt: &(impl Wait + Clock),
        alloc: Global,
        ended: &EndedConn,
        file: &Option<String>,
    ) {
        self.log.report_end(rt, alloc, self.connection, ended, file);
    }
}

impl Report for Reporting {
    fn try_clone(&self) -> Result<Reporting, AllocError> {
        Reporting::new(&self.log, &self.methods, self.connection)
    }

    // (kept out of its caller, as `end` is)
    #[inline(never)]
    fn call(&self, rt: &(impl Wait + Clock), alloc: Global, call: &CallAccount) {
        self.log
            .report_call(rt, alloc, self.connection, &self.methods, call);
    }
}
