//! Wire cases for a server of gRPC over HTTP/2: a client that sends what a real one wouldn't, and
//! judges what comes back (RFC 9113, RFC 7541, gRPC over HTTP/2).
//!
//! A case is text (`rows`): its title, its level and section, what it rests on, the steps that are
//! taken, and the reactions that are lawful. Each runs over connections of its own. `run_case` runs
//! one and answers what came of it; `every_case` has all, and `text_of` the lines that are printed
//! of one; `list` prints what there is.
//!
//! Read `group` and `case` for what a case is; `server_settings` for what it takes from the
//! server's SETTINGS; `content`, `frame` and `step` for what is sent; `reaction` and `seen_frames`
//! for what comes back and how it is judged; `server` and `talk` for the connection, `engine` for
//! one try and `run` for one case; `verdict`, `outcome`, `report` and `every` for all of them.
//! `specs/Verdicts.antt` says which verdict tries lead to.
#![tactic(auto)]

mod case;
mod content;
mod engine;
mod every;
mod fault;
mod frame;
mod group;
mod outcome;
mod reaction;
mod report;
mod rows;
mod run;
mod seen_frames;
mod server;
mod server_settings;
mod step;
mod stream_seen;
mod talk;
mod verdict;

pub use case::Case;
pub use every::{every_case, list};
pub use fault::WireFault;
pub use group::Group;
pub use outcome::{CaseOutcome, lost_outcome};
pub use report::{lost_text, text_of};
pub use run::run_case;
pub use server::{Pace, Server};
pub use verdict::verdict_of;
