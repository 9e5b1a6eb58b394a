//! Runs cases and wire cases against a server.
//!
//! - `run_case` runs test cases (`client`, `attempt`), several at a time (`load`), or as a soak
//!   (`soak`). `connecting` makes the connections, `captured_conn` keeps what passes on one.
//! - `run_wire` lists wire cases, or runs them side by side (`wire_cases`), and reports their
//!   outcomes (`desk`).
//! - `tally`: the line of a case that was run several times; `trial`: what came of all, and why
//!   they were not run to their end.
#![tactic(auto)]

mod attempt;
mod captured_conn;
mod client;
mod connecting;
mod desk;
mod load;
mod soak;
mod tally;
mod trial;
mod wire_cases;

pub use attempt::{Target, outcome_by, outcomes_of, passed_since, print_summary};
pub use client::{PATIENCE, run_all_cases, run_case};
pub use connecting::{ServerPlace, set_ticks, without_brackets};
pub use trial::{RunVerdict, TrialFault, choice_of, end_run, refuse_choice};
pub use wire_cases::run_wire;
