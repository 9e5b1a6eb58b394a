//! Writing one message.

ghost use Rattle.std.specs.Prelude.{◌≡◌, ◌≤◌, ◌++◌, length, IfErr, OnErr, OnOk};
ghost use Rattle.lpm.specs.Messages.{frame, max_message_len, prefix_of, IsMessage};
ghost use Rattle.lpm.specs.Writes.{RefusesLength};

use crate::front::{PREFIX_LEN, UNCOMPRESSED};
use crate::{LpmFault, MAX_MESSAGE_LEN};

/// Appends the message with its prefix: the flag 0, four bytes of length, the message.
///
/// The bytes of `message` are copied once. Memory aside, it refuses only a message of more than
/// `MAX_MESSAGE_LEN` bytes.
pub fn write_message(message: &[u8], out: &mut Vec<u8>) -> Result<(), LpmFault>
    ensures ok { OnOk result (out.new.items ≡ out.old.items ++ frame message.now) }
    ensures within { OnOk result (IsMessage message.now) }
    ensures fault { IfErr result (RefusesLength (length message.now)) }
    ensures unchanged { OnErr result (out.new.items ≡ out.old.items) }
{
    if message.len() > MAX_MESSAGE_LEN {
        return Err(LpmFault::TooLong);
    }
    out.reserve(PREFIX_LEN + message.len())?;
    out.extend_from_slice(&prefix(message.len()))?;
    out.extend_from_slice(message)?;
    Ok(())
}

/// Appends the prefix of a message of `len` bytes, for a caller who writes the message itself right
/// after it, so that prefix and message are in one buffer.
///
/// It refuses a message of more than `MAX_MESSAGE_LEN` bytes. The caller reserves the memory for
/// the message.
pub fn write_prefix(len: usize, out: &mut Vec<u8>) -> Result<(), LpmFault>
    ensures ok { OnOk result (out.new.items ≡ out.old.items ++ prefix_of len) }
    ensures within { OnOk result (len ≤ max_message_len) }
    ensures fault { IfErr result (RefusesLength len) }
    ensures unchanged { OnErr result (out.new.items ≡ out.old.items) }
{
    if len > MAX_MESSAGE_LEN {
        return Err(LpmFault::TooLong);
    }
    out.extend_from_slice(&prefix(len))?;
    Ok(())
}

/// The prefix of a message of `len` bytes.
fn prefix(len: usize) -> [u8; PREFIX_LEN]
    requires { len ≤ max_message_len }
    ensures { result ≡ prefix_of len }
{
    let [first, second, third, fourth] = (len as u32).to_be_bytes();
    [UNCOMPRESSED, first, second, third, fourth]
}
