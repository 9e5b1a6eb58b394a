//! The readers and writers of a connection, each of which remembers that it failed.
//!
//! A device says of a fault only that there was one, and remembers it by a mark that nothing
//! clears. So a contract can demand of an answer "the input failed" that the mark of that reader is
//! set.
//!
//! - `conn`: the traits `ConnRead` and `ConnWrite`. Their contracts speak of the bytes, where these
//!   are known, and of the mark.
//! - `whole`: `read_all` reads to the end of the input, and `write_all` writes all bytes; after a
//!   fault a prefix of them.
//! - `std_device`: `StdDevice` makes a device of any reader or writer of std. What a signal
//!   interrupts is tried again.
#![tactic(auto)]

mod conn;
mod std_device;
mod whole;

pub use conn::{ConnRead, ConnWrite, DeviceFault};
pub use std_device::StdDevice;
pub use whole::{ReadFault, read_all, write_all};
