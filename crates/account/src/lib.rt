//! What went through a call, and which records of that are lawful.
//!
//! Such a record is an account: it has the bytes that were fed, the messages that were taken, the
//! items that were given and sent, how the client's half was shut, and what the handler was told of
//! that (`call`). `specs/Accounts.antt` says which accounts are lawful, and `specs/Runs.antt` which
//! account a list of events makes. `serial` has `replay`, the serial core: it makes that account,
//! event by event, and for every list of events the account is lawful. The crate `callbox` has the
//! ends of a call, which work in threads of their own, by these two definitions. Both crates share
//! `ending`.
#![tactic(auto)]

pub mod call;
pub mod ending;
pub mod serial;

pub use call::{Account, CallEvent, OutItem, RequestEnd, Shut};
pub use ending::told_behind;
pub use serial::replay;
