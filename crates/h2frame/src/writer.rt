//! Writing frames.
//!
//! A head that is written has no padding and no priority, by its kind (`is_padded`,
//! `has_priority`). A frame of an unknown type may have those bits, since they mean nothing there.

ghost use Rattle.std.specs.Prelude.{
  ◌≡◌,
  ◌<◌,
  ◌≤◌,
  ◌+◌,
  ◌++◌,
  ◌⊎◌,
  Some,
  Err,
  IfErr,
  OnOk,
  OnErr,
  length,
  vec_capacity,
  vec_len,
};
ghost use Rattle.h2frame.specs.Faults.{frame_fault};
ghost use Rattle.h2frame.specs.FrameList.{Whole, Spells};
ghost use Rattle.h2frame.specs.Spelling.{IsWritable, head_text, spelled};

use crate::{Frame, FrameFault, FrameHead};

/// The nine bytes of a head (RFC 9113, section 4.1), whose reserved bit isn't set.
pub fn head_text(head: &FrameHead) -> [u8; 9]
    ensures { result ≡ head_text 0 head.now }
{
    let [_, a, b, c] = head.length.to_be_bytes();
    let [s, t, u, v] = head.stream.to_be_bytes();
    [a, b, c, head.kind.code(), head.flags.bits, s, t, u, v]
}

/// Appends the frame, which isn't padded and has no priority (`IsWritable`). Memory aside, it
/// refuses exactly what a reader would refuse, for the same fault.
pub fn write_frame(frame: &Frame, out: &mut Vec<u8>) -> Result<(), FrameFault>
    requires { IsWritable frame.now }
    ensures ok { OnOk result (out.new.items ≡ out.old.items ++ spelled frame.now) }

    // A reader of those bytes has this frame.
    ensures read_back { OnOk result (Spells (spelled frame.now) (Whole frame.now)) }
    ensures refused { (fault : FrameFault) → frame_fault frame.now ≡ Some fault → result
        ≡ Err fault }
    ensures cause { IfErr result
        (λ fault. (fault ≡ FrameFault.OutOfMemory) ⊎ (frame_fault frame.now ≡ Some fault)) }
    ensures err { OnErr result (out.new.items ≡ out.old.items) }

    // If there is room it takes no memory.
    ensures full { result ≡ Err FrameFault.OutOfMemory
        → vec_capacity out.old < vec_len out.old + length (spelled frame.now) }
    ensures capacity { vec_capacity out.old ≤ vec_capacity out.new }
{
    if let Some(fault) = frame.fault() {
        return Err(fault);
    }
    let head = head_text(&frame.head);
    out.reserve(head.len() + frame.content.len())?;
    out.extend_from_slice(&head)?;
    out.extend_from_slice(frame.content.as_slice())?;
    Ok(())
}
