//! How many bytes of DATA the peer allows to be sent on the connection and on each stream (RFC
//! 9113, sections 5.2 and 6.9).
//!
//! Credit raises a window, sending lowers it, and a new initial size moves those of all streams.
//! `ConnectionWindow` has what all streams share, and a `Balance` what a stream has of its own.
//! The server's writer keeps the balances in its own table of streams (`outwriter`). `SendWindows`
//! has a table of its own: the client uses it. The program `wire_rows` has worked histories, with
//! the answers that RFC 9113 demands.
#![tactic(auto)]

pub mod connection_window;
pub mod send_windows;

pub use connection_window::{Balance, ConnectionWindow};
pub use send_windows::{SendWindows, WindowFault};
