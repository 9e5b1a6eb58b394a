//! Chooses the frame that a connection's writer writes next (RFC 9113, sections 5, 6 and 8.1).
//!
//! An `OutCore` takes controls, which are what the peer said or what this side is to say, and
//! credit for the peer. It looks at the senders of the open calls, and answers the next frame, one
//! at a time. It reads and writes nothing, and waits for nothing.
//!
//! What it does is a run: a list of steps, each a control taken, credit granted, a frame written or
//! a sender given back (`specs/Steps.antt`). `specs/Runs.antt` says which runs are lawful: they
//! keep to windows, acknowledge in order, reset only what is to be reset, keep header blocks whole,
//! and write nothing after a stream's end. `specs/Parts.antt` says what the frames of one stream
//! carry, and what items spell.
//!
//! Read `control` for what goes in; `out_frame`, `frames` and `blocks` for the frames that come
//! out; `stream`, `due`, `stream_state`, `resize` and `states` with `states::entries` for what is
//! kept, and `outbound`, `writing` and `sending`, which bring it together; `out_core` for what a
//! control does, `next` for the choice of a frame, `left` for the calls that were left without
//! trailers, and `release` for the senders that are given back. `laws` has what follows from the
//! definitions.
#![tactic(auto)]

mod blocks;
mod control;
mod due;
mod frames;
pub mod laws;
mod left;
pub mod next;
pub mod out_core;
mod out_frame;
mod outbound;
mod release;
mod resize;
mod sending;
mod states;
mod stream;
mod stream_state;
mod writing;

pub use control::{OutFault, WriterOrder};
pub use next::Next;
pub use out_core::OutCore;
pub use out_frame::OutFrame;
