//! The command `frames`, which prints a line for each frame of a file.
//!
//! A file has a capture that this program wrote, of any number of connections; or what
//! `trace::sent_of` reads: what both sides of a connection sent, or one side, as text or as it is.
//! Two files have a side each.
//!
//! Read `file_content` for what files have, `printing` for lines, `captured` for those of a
//! capture, and `run` for the command.
#![tactic(auto)]

mod captured;
mod fault;
mod file_content;
mod printing;
mod run;

pub use fault::FramesFault;
pub use run::run_frames;
