//! A line for each frame of a connection, in both directions.
//!
//! A `Trace` is shown the bytes that each side of a connection sends, in any pieces. It cuts them
//! into a client's preface and frames, and answers a `Line` for each: when it came, who sent it,
//! what its head says, and what it means for fields, windows, messages and the status of a call. It
//! goes on after faults, which it names.
//!
//! `Trace` and the laws say that each byte is in one line, in order, and that the lines don't
//! depend on how the bytes were cut into pieces. `Blocks` says that fields are those of their
//! block, by the tables of its side. A check tries what a line says as text (`checks/frames`).
//!
//! `sent_of` reads what a file has of a connection, and `push_frames` shows it: a command has only
//! to read the file and to write the text.
//!
//! Read `item` for what bytes are cut into, `cutter` for the cutting; `content`, `blocks`,
//! `spelling`, `messages`, `windows` and `streams` for what is known of a connection,
//! `frame_meaning` and `trace_state` for what a frame means, `tracing` for the lines; `names`,
//! `text` and `line` for how they are written; `input` and `report` for files.
#![tactic(auto)]

mod blocks;
mod content;
mod cutter;
mod frame_meaning;
mod input;
mod item;
mod laws;
mod line;
mod messages;
mod names;
mod report;
mod sides;
mod spelling;
mod streams;
mod text;
mod trace_state;
mod tracing;
mod windows;

pub use cutter::Cutter;
pub use frame_meaning::{Block, FrameMeaning};
pub use input::{InputFault, SentBytes, sent_of};
pub use item::{Item, SideStage};
pub use laws::{joins, one_cut, reads_frames};
pub use line::{Form, Line, ShownLine};
pub use messages::{Part, Prefix};
pub use report::{push_frames, push_lines};
pub use spelling::Spelling;
pub use tracing::Trace;
pub use windows::Change;
