//! What the threads of a connection hand each other for a call. The numbers of calls and their
//! accounts are here, too.
//!
//! A call has lanes of its own, with four ends. The reader makes them, and they come back to it
//! once the call is over: the `Taker` and the giving end with a `FinishedJob`, from a worker; the
//! `Sender` with a `SendingEnd`, from the writer. Then the call is settled, and its `CallAccount`
//! is final.
//!
//! - `register`: the numbers of calls, which say of which call an end is that comes back.
//! - `work`: a call that is to be answered; `job`: what a worker is handed, and hands back; `ways`:
//!   the rings for that; `line`: the worker's bell.
//! - `order`: the reading side's orders to the writing side, and what that hands back.
//! - `account`: what became of a call; `accounts`: of all calls; `report`: of a connection.
//! - `answering`: what methods answer, as a word for clauses.
#![tactic(auto)]

pub mod accounts;
pub mod answering;
pub mod call_account;
pub mod job;
pub mod line;
pub mod order;
pub mod register;
pub mod report;
pub mod ways;
pub mod work;

pub use accounts::Accounts;
pub use answering::Answering;
pub use call_account::{CallAccount, Traffic};
pub use job::{FinishedJob, Job, Task};
pub use line::Line;
pub use order::{HOME, OpeningCall, Order, ReturningCall, SendingEnd};
pub use register::{CallNumber, Front, Naming, NewRegister, Register};
pub use report::{ConnReport, Ending};
pub use ways::{DoneIn, DoneOut, EachAnswered, EachFresh, PLACES, TasksIn, TasksOut};
pub use work::{InLane, OutLane, Request, Work};
