//! The message that spells a reply.

ghost use Rattle.std.specs.Prelude.{◌≡◌, IfOk};
ghost use Rattle.lpm.specs.Messages.{frame};
ghost use Rattle.handlers.specs.Replies.{reply_bytes};

use bytes::Bytes;
use handlers::Reply;
use lpm::{MAX_MESSAGE_LEN, write_prefix};
use std::alloc::{AllocError, Global};
use zeros::ZeroTail;

/// How many bytes stand before a message: a flag and four bytes of length.
const PREFIX_LEN: usize = 5;

/// A reply with its prefix. The zeros of its payload take no memory.
pub(crate) fn framed(alloc: Global, reply: Reply) -> Result<ZeroTail, AllocError>
    ensures { IfOk result (λ bytes. bytes ≡ frame (reply_bytes reply)) }
{
    let len = reply.len();
    if len > MAX_MESSAGE_LEN {
        return Err(AllocError);
    }
    let mut front = Vec::with_capacity(alloc, PREFIX_LEN + reply.front_len())?;
    if let Err(_fault) = write_prefix(len, &mut front) {
        return Err(AllocError);
    }
    reply.write_front(&mut front)?;
    Ok(ZeroTail::new(Bytes::from_vec(front)?, reply.zeros()))
}
