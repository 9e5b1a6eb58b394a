//! A server that misbehaves, for authors of clients.
//!
//! A misbehaviour is a short list of steps in a table: what the server sends and what it waits for,
//! what the client is to do, and which sentence binds it then. A `Stage` plays some of them against
//! whatever client calls: the eight of gRPC's negative HTTP/2 tests by their names and rules, and
//! more. What a client did is seen on the wire. A client is reported as wrong only if a sentence
//! forbids what it did, which is printed; and as not tested if it didn't do what the case needs.
//!
//! To add one, write its entry in `official`, `responses`, `framing`, `windows` or `closing`, and
//! its sentence in `sentences`.
//!
//! Read `step` and `misbehaviour` for what an entry says, then the tables; `breach` and `sentences`
//! for what binds a client, `lack` for what a case needs of it, `deeds` and `verdict` for what is
//! said of it; `intake`, `rules`, `call` and `connection` for the server's side of a connection,
//! and `halt` for why it goes no further; `frame_text` for how frames are written; `fence`,
//! `sending` and `player` for the steps; `line`, `host` and `port` for connections; `rule`,
//! `report` and `stage` for what is said, printed and run.
#![tactic(auto)]

mod breach;
mod call;
mod closing;
mod connection;
mod deeds;
mod fence;
mod frame_text;
mod framing;
mod halt;
mod host;
mod intake;
mod lack;
mod line;
mod misbehaviour;
mod official;
mod player;
mod port;
mod report;
mod responses;
mod rule;
mod rules;
mod sending;
mod sentences;
mod stage;
mod step;
mod table;
mod verdict;
mod windows;

pub use misbehaviour::Misbehaviour;
pub use stage::{PlayOutcome, PlayPlace, RunFault, Stage, list};
pub use table::all as misbehaviours;
