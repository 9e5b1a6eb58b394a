//! What steps send on a call's stream.

ghost use Rattle.std.specs.Prelude.{◌≡◌, ◌<◌, ◌≤◌, ◌^◌, length};

use crate::connection::Connection;
use crate::frame_text::{
    CONTINUATION, DATA, END_HEADERS, END_STREAM, GOAWAY, HEADERS, NO_FLAGS, PADDED, RST_STREAM,
    block_of, push_frame, push_frame_head,
};
use crate::halt::Halt;
use crate::lack::{ClientLack, LONGEST_FRAMES, SHORT_REPLY, WIDE_WINDOWS};
use crate::line::Line;
use crate::responses::{HEAD, OK};
use crate::step::{LastStream, Pair, Part, PlayStep};
use h2frame::StreamId;
use std::alloc::AllocError;

/// How many padded frames there are, each with this much padding: 1 MiB together.
const PADDED_FRAMES: u32 = 4_113;

const PADDING: [u8; 255] = [0; 255];

/// The most bytes of a reply in a padded frame.
const PADDED_PIECE: usize = 100;

/// How many bytes of a reply are sent one by one.
const SINGLE_BYTES: usize = 1_000;

/// How many bytes of a reply the frames of gRPC's own tests of padding have.
const FIVE: usize = 5;

/// The window of a stream, where no SETTINGS say another (RFC 9113, section 6.9.2).
const USUAL_WINDOW: usize = 65_535;

/// The longest frame that there is (RFC 9113, section 4.2).
const LONGEST: u32 = 16_777_215;

/// The most CONTINUATIONs.
const CONTINUATIONS: usize = 20;

/// By how much DATA go past the windows.
const PAST: u32 = 65_536;

/// The most bytes that are sent past a window at once.
const MOST_PAST: u32 = 16_000_000;

/// Zero bytes.
const ZEROS: [u8; 16_384] = [0; 16_384];

/// Does a step, or a part of it, about the call of this index. Whether it was done.
pub fn is_sent<L: Line>(
    connection: &mut Connection<L>,
    index: usize,
    padded: &mut u32,
    step: &PlayStep,
) -> Result<bool, Halt> {
    let Some(call) = connection.calls.as_slice().get(index) else {
        return Ok(true);
    };
    let stream = call.stream;
    match step {
        PlayStep::Reply(part) => reply(connection, index, padded, *part),
        PlayStep::Head(fields) => head(connection, index, fields, END_HEADERS),
        PlayStep::Trailers(fields) => {
            end(connection, index);
            head(connection, index, fields, END_HEADERS | END_STREAM)
        }
        PlayStep::Reset(code) => {
            end(connection, index);
            reset(connection, index, stream, *code)
        }
        PlayStep::Continued(fields) => continued(connection, stream, fields),
        _ => is_framed(connection, stream, step),
    }
}

/// Does a step whose frames are none of a right answer.
fn is_framed<L: Line>(
    connection: &mut Connection<L>,
    stream: StreamId,
    step: &PlayStep,
) -> Result<bool, Halt> {
    if !matches!(step, PlayStep::Credit(_) | PlayStep::GoAway(_)) {
        connection.is_uncounted = true;
    }
    match step {
        PlayStep::Credit(increment) => connection.credit(stream, *increment)?,
        PlayStep::GoAway(last) => goaway(connection, stream, *last)?,
        PlayStep::Data(bytes) => connection.push(DATA, NO_FLAGS, stream, bytes)?,
        PlayStep::Frame(kind, flags, bytes) => connection.push(*kind, *flags, stream, bytes)?,
        PlayStep::TooLong => too_long(connection, stream)?,
        PlayStep::PastWindow => past_window(connection, stream)?,
        PlayStep::HalfFrame => {
            push_frame_head(&mut connection.out, DATA, NO_FLAGS, stream, 100)?;
            connection.out.extend_from_slice(&ZEROS[..50])?;
        }
        _ => {}
    }
    Ok(true)
}

/// Answers a call well, as far as the windows let its reply through.
pub fn answer<L: Line>(connection: &mut Connection<L>, index: usize) -> Result<(), Halt> {
    let has_head = match connection.calls.as_slice().get(index) {
        Some(call) => call.has_head,
        None => true,
    };
    if !has_head {
        head(connection, index, HEAD, END_HEADERS)?;
    }
    if send_up_to(connection, index, usize::MAX)? {
        end(connection, index);
        head(connection, index, OK, END_HEADERS | END_STREAM)?;
    }
    Ok(())
}

/// Sends a header block.
fn head<L: Line>(
    connection: &mut Connection<L>,
    index: usize,
    fields: &[Pair],
    flags: u8,
) -> Result<bool, Halt> {
    let block = block_of(connection.alloc, fields)?;
    let Some(call) = connection.calls.get_mut(index) else {
        return Ok(true);
    };
    call.has_head = true;
    let stream = call.stream;
    connection.push(HEADERS, flags, stream, block.as_slice())?;
    Ok(true)
}

/// The server says nothing more of a call.
fn end<L: Line>(connection: &mut Connection<L>, index: usize) {
    let Some(call) = connection.calls.get_mut(index) else {
        return;
    };
    call.is_over = true;
    let stream = call.stream;
    connection.windows.close(stream);
}

/// Resets a call.
fn reset<L: Line>(
    connection: &mut Connection<L>,
    index: usize,
    stream: StreamId,
    code: u32,
) -> Result<bool, Halt> {
    if let Some(call) = connection.calls.get_mut(index) {
        call.is_reset = true;
    }
    connection.push(RST_STREAM, NO_FLAGS, stream, &code.to_be_bytes())?;
    Ok(true)
}

/// Sends GOAWAY with NO_ERROR.
fn goaway<L: Line>(
    connection: &mut Connection<L>,
    stream: StreamId,
    last: LastStream,
) -> Result<(), Halt> {
    let named = match last {
        LastStream::ThisCall => stream,
        LastStream::None => 0,
    };
    let mut content = Vec::new(connection.alloc);
    content.extend_from_slice(&named.to_be_bytes())?;
    content.extend_from_slice(&[0, 0, 0, 0])?;
    connection.rules.has_goaway = true;
    connection.push(GOAWAY, NO_FLAGS, 0, content.as_slice())?;
    Ok(())
}

/// Sends a header block in twenty-one frames at most.
fn continued<L: Line>(
    connection: &mut Connection<L>,
    stream: StreamId,
    fields: &[Pair],
) -> Result<bool, Halt> {
    let block = block_of(connection.alloc, fields)?;
    let mut rest = block.as_slice();
    let mut kind = HEADERS;
    for left in 0..CONTINUATIONS {
        let len = rest.len() / (CONTINUATIONS + 1 - left);
        let (piece, behind) = rest.split_at(len);
        connection.push(kind, NO_FLAGS, stream, piece)?;
        kind = CONTINUATION;
        rest = behind;
    }
    connection.push(CONTINUATION, END_HEADERS, stream, rest)?;
    Ok(true)
}

/// Sends a part of the right reply. Whether all of it was sent.
fn reply<L: Line>(
    connection: &mut Connection<L>,
    index: usize,
    padded: &mut u32,
    part: Part,
) -> Result<bool, Halt> {
    match part {
        Part::Half => {
            let half = reply_len(connection, index)? / 2;
            send_up_to(connection, index, half)
        }
        Part::Rest => send_up_to(connection, index, usize::MAX),
        Part::Pinged => send_pinged(connection, index),
        Part::Bytewise => send_bytewise(connection, index),
        Part::Padded => send_padded(connection, index, padded, PADDED_FRAMES, PADDED_PIECE),
        Part::Fives => {
            has_long_reply(connection, index)?;
            send_in(connection, index, FIVE)
        }
        Part::PaddedFives => {
            has_long_reply(connection, index)?;
            send_padded(connection, index, padded, 0, FIVE)
        }
    }
}

/// The right reply has to be longer than a window.
fn has_long_reply<L: Line>(connection: &mut Connection<L>, index: usize) -> Result<(), Halt> {
    if reply_len(connection, index)? > USUAL_WINDOW {
        Ok(())
    } else {
        Err(Halt::Lacks(ClientLack::Seen(SHORT_REPLY)))
    }
}

/// Sends the right reply in frames of a size, as far as the windows let them through. Answers
/// whether all of it was sent.
fn send_in<L: Line>(
    connection: &mut Connection<L>,
    index: usize,
    most: usize,
) -> Result<bool, Halt> {
    for _ in 0..u64::MAX {
        if left_of(connection, index, usize::MAX)? == 0 {
            return Ok(true);
        }
        if !connection.send_piece(index, most)? {
            return Ok(false);
        }
    }
    Ok(false)
}

/// How many bytes the right reply has.
fn reply_len<L: Line>(connection: &mut Connection<L>, index: usize) -> Result<usize, Halt> {
    let alloc = connection.alloc;
    let Some(call) = connection.calls.get_mut(index) else {
        return Ok(0);
    };
    call.prepare(alloc)?;
    Ok(call.reply_len())
}

/// How many bytes of the right reply are still to be sent, up to a number.
fn left_of<L: Line>(
    connection: &mut Connection<L>,
    index: usize,
    most: usize,
) -> Result<usize, Halt> {
    let len = reply_len(connection, index)?.min(most);
    match connection.calls.as_slice().get(index) {
        Some(call) => Ok(len.saturating_sub(call.sent)),
        None => Ok(0),
    }
}

/// Sends the first bytes of the right reply, up to a number, as far as the windows let them
/// through. Answers whether all of them were sent.
fn send_up_to<L: Line>(
    connection: &mut Connection<L>,
    index: usize,
    most: usize,
) -> Result<bool, Halt> {
    for _ in 0..u64::MAX {
        let left = left_of(connection, index, most)?;
        if left == 0 {
            return Ok(true);
        }
        if !connection.send_piece(index, left)? {
            return Ok(false);
        }
    }
    Ok(false)
}

/// Sends what is left of the right reply, with a PING before each frame.
fn send_pinged<L: Line>(connection: &mut Connection<L>, index: usize) -> Result<bool, Halt> {
    for _ in 0..u64::MAX {
        let left = left_of(connection, index, usize::MAX)?;
        if left == 0 {
            return Ok(true);
        }
        if !connection.send_piece(index, left)? {
            return Ok(false);
        }
        connection.ping()?;
    }
    Ok(false)
}

/// Sends the first thousand bytes of the right reply, each in a frame of its own that is written
/// byte by byte.
fn send_bytewise<L: Line>(connection: &mut Connection<L>, index: usize) -> Result<bool, Halt> {
    for _ in 0..SINGLE_BYTES {
        let left = left_of(connection, index, SINGLE_BYTES)?;
        if left == 0 {
            break;
        }
        if !connection.send_piece(index, 1)? {
            return Ok(false);
        }
        connection.trickle();
    }
    Ok(true)
}

/// Sends the right reply in padded frames, each with at most a number of its bytes, and in at least
/// a number of frames.
fn send_padded<L: Line>(
    connection: &mut Connection<L>,
    index: usize,
    padded: &mut u32,
    least: u32,
    most: usize,
) -> Result<bool, Halt>
    requires { most ≤ 100 }
{
    for _ in 0..u64::MAX {
        let left = left_of(connection, index, usize::MAX)?;
        if left == 0 && *padded >= least {
            return Ok(true);
        }
        if !send_padded_piece(connection, index, left.min(most))? {
            return Ok(false);
        }
        *padded = padded.saturating_add(1);
    }
    Ok(false)
}

/// Sends bytes of the right reply in a padded frame, if the windows let all of it through.
fn send_padded_piece<L: Line>(
    connection: &mut Connection<L>,
    index: usize,
    len: usize,
) -> Result<bool, Halt>
    requires { len ≤ 100 }
{
    let Some(call) = connection.calls.get_mut(index) else {
        return Ok(false);
    };
    let whole = len as u32 + 256;
    if connection.windows.room(call.stream) < whole {
        return Ok(false);
    }
    let Some(piece) = call.rest().get(..len) else {
        return Ok(false);
    };
    push_frame_head(&mut connection.out, DATA, PADDED, call.stream, whole)?;
    connection.out.push(255)?;
    connection.out.extend_from_slice(piece)?;
    connection.out.extend_from_slice(&PADDING)?;
    connection.windows.spend(call.stream, whole)?;
    call.sent = call.sent.saturating_add(len);
    Ok(true)
}

/// Sends a DATA frame that is one byte longer than the client allows.
fn too_long<L: Line>(connection: &mut Connection<L>, stream: StreamId) -> Result<(), Halt> {
    if connection.longest >= LONGEST {
        return Err(Halt::Lacks(ClientLack::Seen(LONGEST_FRAMES)));
    }
    let len = connection.longest + 1;
    push_frame_head(&mut connection.out, DATA, NO_FLAGS, stream, len)?;
    push_zeros(&mut connection.out, len)?;
    Ok(())
}

/// Appends `count` zero bytes.
fn push_zeros(out: &mut Vec<u8>, count: u32) -> Result<(), AllocError> {
    for _ in 0..count / 16_384 {
        out.extend_from_slice(&ZEROS)?;
    }
    out.extend_from_slice(&ZEROS[..(count % 16_384) as usize])
}

/// Sends DATA past the client's windows: the beginning of a message that is as long.
fn past_window<L: Line>(connection: &mut Connection<L>, stream: StreamId) -> Result<(), Halt> {
    let count = connection.windows.room(stream).saturating_add(PAST);
    if count > MOST_PAST {
        return Err(Halt::Lacks(ClientLack::Seen(WIDE_WINDOWS)));
    }
    let [a, b, c, d] = count.to_be_bytes();
    push_frame(
        &mut connection.out,
        DATA,
        NO_FLAGS,
        stream,
        &[0, a, b, c, d],
    )?;
    for _ in 0..count / 16_384 {
        push_frame(&mut connection.out, DATA, NO_FLAGS, stream, &ZEROS)?;
    }
    let rest = (count % 16_384) as usize;
    push_frame(&mut connection.out, DATA, NO_FLAGS, stream, &ZEROS[..rest])?;
    Ok(())
}
