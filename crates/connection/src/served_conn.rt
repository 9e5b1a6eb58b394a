//! The report of a connection that was served.

use callparts::ConnReport;

/// What became of a connection.
#[derive(Drop)]
pub struct ServedConn<O: Drop> {
    pub report: ConnReport,
    /// The device that was written to.
    pub output: O,
}
