//! Replies that are held and read again.

use anyhow::Result;
use handlers::{Replies, Reply};
use std::alloc::Global;

/// Replies that take one to five bytes each, those at the borders among them, in no order of size.
const ORDER: [Reply; 18] = [
    Reply::Zeros(0),
    Reply::Zeros(16_383),
    Reply::Zeros(127),
    Reply::Sum(-74_922),
    Reply::Zeros(128),
    Reply::Zeros(1),
    Reply::Zeros(4_194_292),
    Reply::Zeros(126),
    Reply::Empty,
    Reply::Zeros(16_382),
    Reply::Zeros(2_097_152),
    Reply::Sum(2_147_483_647),
    Reply::Zeros(16_384),
    Reply::Sum(-2_147_483_648),
    Reply::Zeros(2_097_151),
    Reply::Sum(0),
    Reply::Zeros(4_294_967_295),
    Reply::Sum(-1),
];

/// Whether these are the replies in their order, and no more. They are passed.
fn are(replies: &mut Replies, order: &[Reply]) -> bool {
    for wanted in order {
        if replies.first() != Some(*wanted) {
            return false;
        }
        replies.pass();
    }
    replies.is_empty()
}

/// All replies are read back, and nothing after them, until one more is pushed.
pub fn are_read_back(alloc: Global) -> Result<bool> {
    let mut replies = Replies::one(alloc, ORDER[0])?;
    for reply in &ORDER[1..] {
        replies.push(*reply)?;
    }
    let are_all = are(&mut replies, &ORDER);
    replies.pass();
    let is_none = replies.first().is_none();
    replies.push(Reply::Zeros(300))?;
    Ok(are_all && is_none && are(&mut replies, &[Reply::Zeros(300)]))
}
