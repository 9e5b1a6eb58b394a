//! What a frame means, beside what its own bytes say.

use crate::messages::Part;
use crate::spelling::Spelling;
use crate::windows::Change;
use h2frame::{FrameFault, FrameHead};
use hpack_codec::HpackFault;
use lists::Field;

/// What a frame means after the frames before it.
#[derive(Debug, Drop, PartialEq, Eq)]
pub enum FrameMeaning {
    /// No more than its bytes say.
    Nothing,
    /// It breaks a rule, and isn't used.
    Fault(FrameFault),
    /// It is a fragment of a header block that goes on.
    Fragment,
    /// It goes on with no header block.
    NoBlock,
    /// It makes a header block whole.
    Block(Block),
    /// What DATA have of the messages of the call, the windows of the side that sent them, and
    /// whether the stream ends inside a message.
    Data {
        parts: Vec<Part>,
        connection: Change,
        stream: Change,
        is_cut: bool,
    },
    /// A window of the other side grows.
    Credit(Change),
    /// The windows of the other side's streams get another initial size.
    Resized(Change),
}

/// A header block that is whole.
#[derive(Debug, Drop, PartialEq, Eq)]
pub struct Block {
    /// The head of the frame that began it.
    pub head: FrameHead,
    pub bytes: Vec<u8>,
    /// How its fields are spelled.
    pub spellings: Vec<Spelling>,
    pub fields: Result<Vec<Field>, HpackFault>,
    /// The status of the call and its text, if the server ends it by this block.
    pub status: Option<(u32, String)>,
}
