//! What is known of a connection by its frames so far, and what the next one means.

use crate::blocks::Blocks;
use crate::content::{PARAMETER_LEN, content_of, number_at};
use crate::frame_meaning::FrameMeaning;
use crate::item::Item;
use crate::sides::Sides;
use crate::streams::Streams;
use crate::windows::Windows;
use capture::Side;
use h2frame::{Flags, FrameFault, FrameHead, FrameKind, SettingId};
use std::alloc::{AllocError, Global};

/// What is known of a connection.
#[derive(Drop)]
pub struct TraceState {
    alloc: Global,
    client: Blocks,
    server: Blocks,
    /// What each side may send.
    windows: Sides<Windows>,
    streams: Streams,
}

impl TraceState {
    /// Nothing was sent. It takes no memory yet.
    pub fn new(alloc: Global) -> TraceState {
        TraceState {
            alloc,
            client: Blocks::new(alloc, Side::Client),
            server: Blocks::new(alloc, Side::Server),
            windows: Sides {
                client: Windows::FIRST,
                server: Windows::FIRST,
            },
            streams: Streams::new(alloc),
        }
    }

    /// What the next item of a side means.
    pub fn tell(&mut self, side: Side, item: &Item) -> Result<FrameMeaning, AllocError> {
        match item {
            Item::Frame(head, payload) => self.frame(side, head, payload.as_slice()),
            Item::Preface | Item::Rest(_) => Ok(FrameMeaning::Nothing),
        }
    }

    fn frame(
        &mut self,
        side: Side,
        head: &FrameHead,
        payload: &[u8],
    ) -> Result<FrameMeaning, AllocError> {
        // A side may take longer frames than 16,384 bytes, and say so.
        match head.fault() {
            None | Some(FrameFault::TooLong) => {}
            Some(fault) => return Ok(FrameMeaning::Fault(fault)),
        }
        match head.kind {
            FrameKind::Data => self.data(side, head, payload),
            FrameKind::Headers | FrameKind::PushPromise | FrameKind::Continuation => self.block(
                side, head, payload,
            ),
            FrameKind::WindowUpdate => self.credit(side, head, payload),
            FrameKind::Settings => Ok(self.settings(side, head, payload)),
            FrameKind::RstStream => {
                self.streams.forget(head.stream);
                Ok(FrameMeaning::Nothing)
            }
            FrameKind::Priority | FrameKind::Ping | FrameKind::GoAway | FrameKind::Unknown(_) => Ok(
                FrameMeaning::Nothing,
            ),
        }
    }

    /// A frame has a fragment of a header block.
    fn block(
        &mut self,
        side: Side,
        head: &FrameHead,
        payload: &[u8],
    ) -> Result<FrameMeaning, AllocError> {
        let told = match side {
            Side::Client => self.client.take(head, payload)?,
            Side::Server => self.server.take(head, payload)?,
        };
        if let FrameMeaning::Block(block) = &told {
            let begun = block.head;
            self.opened(side, &begun)?;
        }
        Ok(told)
    }

    /// The block that this frame began is whole. HEADERS open a stream, and may end a side of it.
    fn opened(&mut self, side: Side, head: &FrameHead) -> Result<(), AllocError> {
        if head.kind != FrameKind::Headers {
            return Ok(());
        }
        let mut stream = self.streams.get(head.stream);
        let mut half = stream.of(side);
        half.has_end = half.has_end || head.flags.contains(Flags::END_STREAM);
        stream.set(side, half);
        self.streams.keep(head.stream, stream)
    }

    fn data(
        &mut self,
        side: Side,
        head: &FrameHead,
        payload: &[u8],
    ) -> Result<FrameMeaning, AllocError> {
        let Some(content) = content_of(head, payload) else {
            return Ok(FrameMeaning::Fault(FrameFault::BadPadding));
        };
        let mut windows = self.windows.of(side);
        let mut stream = self.streams.get(head.stream);
        let mut half = stream.of(side);
        let length = i64::from(head.length);
        let connection = windows.change(-length);
        let of_stream = windows.change_stream(&mut half.moved, -length);
        let parts = half.messages.take(self.alloc, content)?;
        let is_end = head.flags.contains(Flags::END_STREAM);
        let is_cut = is_end && half.messages.is_inside();
        half.has_end = half.has_end || is_end;
        self.windows.set(side, windows);
        stream.set(side, half);
        self.streams.keep(head.stream, stream)?;
        Ok(FrameMeaning::Data {
            parts,
            connection,
            stream: of_stream,
            is_cut,
        })
    }

    /// A side lets the other one send more.
    fn credit(
        &mut self,
        side: Side,
        head: &FrameHead,
        payload: &[u8],
    ) -> Result<FrameMeaning, AllocError> {
        let bytes = i64::from(number_at(payload, 0) & 0x7fff_ffff);
        let other = side.other();
        let mut windows = self.windows.of(other);
        if head.stream == 0 {
            let change = windows.change(bytes);
            self.windows.set(other, windows);
            return Ok(FrameMeaning::Credit(change));
        }
        let Some(mut stream) = self.streams.find(head.stream) else {
            return Ok(FrameMeaning::Nothing);
        };
        let mut half = stream.of(other);
        let change = windows.change_stream(&mut half.moved, bytes);
        stream.set(other, half);
        self.streams.keep(head.stream, stream)?;
        Ok(FrameMeaning::Credit(change))
    }

    /// A side says by SETTINGS what the other one may send on streams at first.
    fn settings(&mut self, side: Side, head: &FrameHead, payload: &[u8]) -> FrameMeaning {
        let mut told = FrameMeaning::Nothing;
        if head.flags.contains(Flags::ACK) {
            return told;
        }
        for parameter in payload.chunks(PARAMETER_LEN) {
            let id = number_at(parameter, 0) >> 16;
            if id == u32::from(SettingId::InitialWindowSize.code()) {
                told = self.resized(side.other(), number_at(parameter, 2));
            }
        }
        told
    }

    /// What a side may send on streams at first changes.
    fn resized(&mut self, side: Side, size: u32) -> FrameMeaning {
        let mut windows = self.windows.of(side);
        let change = windows.resize(size);
        self.windows.set(side, windows);
        FrameMeaning::Resized(change)
    }
}
