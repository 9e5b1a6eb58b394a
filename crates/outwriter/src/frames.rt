//! The frames that a writer makes (RFC 9113, section 6).

ghost use Rattle.std.specs.Prelude.{◌≡◌, ◌≤◌, ◌<◌, length, IfOk};
ghost use Rattle.outwriter.specs.Frames.{
  first_settings,
  settings_ack,
  ping_ack,
  ping_frame,
  reset_frame,
  goaway_frame,
  update_frame,
  data_frame,
  headers_frame,
  continuation_frame,
  block_bits,
};

use crate::out_frame::OutFrame;
use bytes::Bytes;
use h2frame::{ErrorCode, Flags, FrameKind, SmallContents, StreamId};
use limits::MAX_LIVE;
use reasons::Reason;
use std::alloc::AllocError;
use zeros::ZeroTail;

/// The numbers of two parameters (section 6.5.2), which `SettingId::code` has too.
const MAX_CONCURRENT_STREAMS: u8 = 3;

const MAX_HEADER_LIST_SIZE: u8 = 6;

/// The most bytes of fields that SETTINGS let the peer put into a header block. The decoder takes
/// more.
const MAX_FIELD_BYTES: u32 = 16_384;

/// The payload of the first SETTINGS: of each parameter its number and its value.
static FIRST_SETTINGS: [u8; 12] = [
    0,
    MAX_CONCURRENT_STREAMS,
    0,
    0,
    0,
    MAX_LIVE as u8,
    0,
    MAX_HEADER_LIST_SIZE,
    0,
    0,
    (MAX_FIELD_BYTES >> 8) as u8,
    (MAX_FIELD_BYTES & 0xff) as u8,
];

pub(crate) fn make_first_settings() -> OutFrame
    ensures { result ≡ first_settings }
{
    OutFrame::new(
        FrameKind::Settings,
        Flags::NONE,
        0,
        ZeroTail::from(Bytes::from_static(&FIRST_SETTINGS)),
    )
}

pub(crate) fn make_settings_ack() -> OutFrame
    ensures { result ≡ settings_ack }
{
    OutFrame::new(
        FrameKind::Settings,
        Flags::ACK,
        0,
        ZeroTail::from(Bytes::new()),
    )
}

pub(crate) fn make_ping_ack(
    small: &mut SmallContents,
    bytes: [u8; 8],
) -> Result<OutFrame, AllocError>
    ensures { IfOk result (λ frame. frame ≡ ping_ack bytes) }
{
    let content = small.content(&bytes)?;
    Ok(OutFrame::new(FrameKind::Ping, Flags::ACK, 0, ZeroTail::from(content)))
}

pub(crate) fn make_ping(small: &mut SmallContents, bytes: [u8; 8]) -> Result<OutFrame, AllocError>
    ensures { IfOk result (λ frame. frame ≡ ping_frame bytes) }
{
    let content = small.content(&bytes)?;
    Ok(OutFrame::new(FrameKind::Ping, Flags::NONE, 0, ZeroTail::from(content)))
}

pub(crate) fn make_reset(
    small: &mut SmallContents,
    id: StreamId,
    code: ErrorCode,
) -> Result<OutFrame, AllocError>
    ensures { IfOk result (λ frame. frame ≡ reset_frame id code) }
{
    let content = small.content(&code.code().to_be_bytes())?;
    Ok(OutFrame::new(
        FrameKind::RstStream,
        Flags::NONE,
        id,
        ZeroTail::from(content),
    ))
}

pub(crate) fn make_goaway(
    small: &mut SmallContents,
    last: StreamId,
    reason: Reason,
) -> Result<OutFrame, AllocError>
    ensures { IfOk result (λ frame. frame ≡ goaway_frame last reason) }
{
    let [a, b, c, d] = last.to_be_bytes();
    let [e, f, g, h] = reason.number().to_be_bytes();
    let text = reason.text().as_bytes();
    let content = small.content_with(&[a, b, c, d, e, f, g, h], text)?;
    Ok(OutFrame::new(FrameKind::GoAway, Flags::NONE, 0, ZeroTail::from(content)))
}

pub(crate) fn make_update(
    small: &mut SmallContents,
    id: StreamId,
    increment: u32,
) -> Result<OutFrame, AllocError>
    ensures { IfOk result (λ frame. frame ≡ update_frame id increment) }
{
    let content = small.content(&increment.to_be_bytes())?;
    Ok(OutFrame::new(
        FrameKind::WindowUpdate,
        Flags::NONE,
        id,
        ZeroTail::from(content),
    ))
}

pub(crate) fn make_data(id: StreamId, bytes: ZeroTail) -> OutFrame
    requires { length bytes ≤ 16384 }
    ensures { result ≡ data_frame id bytes }
{
    OutFrame::new(FrameKind::Data, Flags::NONE, id, bytes)
}

/// The first fragment of a header block. `ends` says whether the block ends its stream, and `whole`
/// whether the fragment is the last.
pub(crate) fn make_headers(id: StreamId, ends: bool, whole: bool, fragment: Bytes) -> OutFrame
    requires { length fragment ≤ 16384 }
    ensures { result ≡ headers_frame id ends whole fragment }
{
    OutFrame::new(
        FrameKind::Headers,
        block_flags(ends, whole),
        id,
        ZeroTail::from(fragment),
    )
}

/// A further fragment.
pub(crate) fn make_continuation(id: StreamId, whole: bool, fragment: Bytes) -> OutFrame
    requires { length fragment ≤ 16384 }
    ensures { result ≡ continuation_frame id whole fragment }
{
    OutFrame::new(
        FrameKind::Continuation,
        block_flags(false, whole),
        id,
        ZeroTail::from(fragment),
    )
}

fn block_flags(ends: bool, whole: bool) -> Flags
    ensures { result.bits ≡ block_bits ends whole }
{
    let end_stream = if ends { Flags::END_STREAM } else { Flags::NONE };
    let end_headers = if whole {
        Flags::END_HEADERS
    } else {
        Flags::NONE
    };
    end_stream.with(end_headers)
}
