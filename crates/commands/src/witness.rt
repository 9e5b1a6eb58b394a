//! What sees the connections of a server: its log, and its recorder.

ghost use Rattle.std.specs.Prelude.{IfOk, IsNone};

use crate::log::{Log, LoggedConn};
use crate::reporting::Reporting;
use crate::stopping::Connection;
use capture::Side;
use handlers::Methods;
use recorder::{Eye, Recorder, Sight, look_and_record};
use std::alloc::{AllocError, Global};
use std::fs::File;
use std::net::TcpStream;
use std::rt::Files;
use std::sync::{Arc, Wait};
use std::time::Clock;

/// Sees connections. The code that serves them has the type as a parameter: so it is shown once
/// that threads may share it, and not again with all else that they share.
pub trait Witness {
    /// A connection begins. The log doesn't follow it if there is no log, or no memory for that.
    fn begin<R: Wait + Clock>(
        &self,
        rt: &R,
        alloc: Global,
        connection: Connection,
    ) -> Option<LoggedConn>;

    /// The tap of a connection that begins, if there is one.
    fn look<R>(&self, rt: R, stream: &TcpStream, connection: Connection) -> Option<Eye<R>>
    where
        R: Files<File = File> + Wait + Clock + Eprint + Copy + Drop;

    /// The place for reports on a connection that begins, if they are wanted.
    fn reporting(
        &self,
        methods: &Arc<Methods>,
        connection: Connection,
    ) -> Result<Option<Reporting>, AllocError>;

    /// The file with what passed on a connection, if there is one.
    fn file_of(&self, connection: Connection) -> Option<String>;
}

/// The log of a server, the log for reports on connections, and its recorder, if it has them.
#[derive(Drop)]
pub struct Witnesses {
    pub log: Option<Arc<Log>>,
    /// The log, or one that has only the reports.
    pub reports: Option<Arc<Log>>,
    pub recorder: Option<Arc<Recorder>>,
}

impl Witnesses {
    /// No witness.
    pub fn none() -> Witnesses {
        Witnesses {
            log: None,
            reports: None,
            recorder: None,
        }
    }

    /// The tap of a connection, if there is one.
    fn eye<R>(&self, rt: R, stream: &TcpStream, connection: Connection) -> Option<Eye<R>>
    where
        R: Files<File = File> + Wait + Clock + Eprint + Copy + Drop,
        ensures { IsNone self.now.recorder → IsNone result }
    {
        let Connection { number, peer } = connection;
        if self.recorder.is_none() {
            return None;
        }
        let own = stream.local_addr().ok()?;
        look_and_record(
            rt,
            &self.recorder,
            number,
            Sight {
                number: None,
                side: Side::Server,
                own,
                peer,
                label: None,
                is_served: true,
            },
        )
    }
}

impl Witness for Witnesses {
    fn begin<R: Wait + Clock>(
        &self,
        rt: &R,
        alloc: Global,
        connection: Connection,
    ) -> Option<LoggedConn> {
        let log = self.log.as_ref()?;
        LoggedConn::begin(rt, alloc, log, connection).ok()
    }

    // (kept out of its caller, whose frame is on the stack of each connection that lives)
    #[inline(never)]
    fn look<R>(&self, rt: R, stream: &TcpStream, connection: Connection) -> Option<Eye<R>>
    where
        R: Files<File = File> + Wait + Clock + Eprint + Copy + Drop,
    {
        self.eye(rt, stream, connection)
    }

    fn reporting(
        &self,
        methods: &Arc<Methods>,
        connection: Connection,
    ) -> Result<Option<Reporting>, AllocError>
        ensures { IsNone self.now.reports → IfOk result (λ reporting. IsNone reporting) }
    {
        match &self.reports {
            Some(log) => Ok(Some(Reporting::new(log, methods, connection)?)),
            None => Ok(None),
        }
    }

    fn file_of(&self, connection: Connection) -> Option<String> {
        match &self.recorder {
            Some(recorder) => recorder.file_of(connection.number).ok()?,
            None => None,
        }
    }
}
