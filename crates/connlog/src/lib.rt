//! The lines of `serve --log`, which say what happens on a connection and why.
//!
//! An `Observer` is shown the bytes that a server reads of a connection and those that it writes,
//! in any pieces. It changes nothing of them, and decides nothing: it follows the client's frames
//! by the server's rules, notes each frame that breaks one, with its figures, and names it once the
//! server acts on it. So if it errs, a line names a wrong cause or none, and the server goes on as
//! before.
//!
//! Read `walk`, the frames of one direction, and `messages`, those of a call's DATA; `cause`, each
//! rule with its figures and its text; `fields` and `place`, which field and which byte of a header
//! block a cause is about; `malformed`, what is wrong with a message; `text`, bytes as a line shows
//! them; `call`, what is known of a call; `tables` and `known_block`, blocks that were read before;
//! `json`, objects; `line`, what a line says; then `conn_state` with `client` and `server`, what
//! the frames of both sides mean, and `observer`.
#![tactic(auto)]

mod call;
mod cause;
mod client;
mod conn_state;
mod fields;
pub mod json;
mod known_block;
mod line;
mod malformed;
mod messages;
mod observer;
mod place;
mod server;
mod tables;
mod text;
mod walk;

pub use line::{ConnEnding, Line};
pub use observer::Observer;
