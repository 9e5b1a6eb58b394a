//! Following a connection: a line for each frame.

ghost use Rattle.std.specs.Prelude.{◌≡◌, ◌++◌, [], IfOk, OnOk};
ghost use Rattle.capture.specs.declared.conversation.Side.TheVariants as sides;
ghost use Rattle.trace.specs.declared.item.SideStage.TheVariants as stages;
ghost use Rattle.trace.specs.Cuts.{IsUnfinished, item_list, rest_of};
ghost use Rattle.trace.specs.Lines.{IsTold, items_of, pending_of};

use crate::cutter::Cutter;
use crate::frame_meaning::FrameMeaning;
use crate::item::{Item, SideStage};
use crate::line::Line;
use crate::trace_state::TraceState;
use capture::Side;
use std::alloc::{AllocError, Global};

/// Follows a connection, and answers a line for each of its frames.
#[derive(Drop)]
pub struct Trace {
    alloc: Global,
    client: Cutter,
    server: Cutter,
    known: TraceState,
}

impl Trace {
    /// Nothing was sent. It takes no memory yet.
    pub fn new(alloc: Global) -> Trace
        ensures client { pending_of result sides.Client
            ≡ record { stage = stages.BeforePreface; bytes = [] } }
        ensures server { pending_of result sides.Server
            ≡ record { stage = stages.InFrames; bytes = [] } }
    {
        Trace {
            alloc,
            client: Cutter::new(alloc, SideStage::BeforePreface),
            server: Cutter::new(alloc, SideStage::InFrames),
            known: TraceState::new(alloc),
        }
    }

    /// A side sends these bytes, `time` microseconds after the connection began. Answers a line for
    /// each frame that they make whole.
    pub fn sent(&mut self, time: u64, side: Side, bytes: &[u8]) -> Result<Vec<Line>, AllocError>
        // Each byte that the side sent is in one line, in order, or waits for more.
        ensures cut { IfOk result (λ lines. IsTold self.old self.new side bytes.now lines.items) }

        // No whole frame waits.
        ensures all { OnOk result (IsUnfinished
            (pending_of self.new side).stage (pending_of self.new side).bytes) }
        ensures client { side ≡ sides.Server
            → pending_of self.new sides.Client ≡ pending_of self.old sides.Client }
        ensures server { side ≡ sides.Client
            → pending_of self.new sides.Server ≡ pending_of self.old sides.Server }
    {
        match side {
            Side::Client => {
                let items = self.client.cut(bytes)?;
                let lines = lines_of(self.alloc, &mut self.known, time, Side::Client, items)?;
                Ok(lines)
            }
            Side::Server => {
                let items = self.server.cut(bytes)?;
                let lines = lines_of(self.alloc, &mut self.known, time, Side::Server, items)?;
                Ok(lines)
            }
        }
    }

    /// The connection has ended: a line for what each side has left over, where there is any.
    pub fn end(self, time: u64) -> Result<Vec<Line>, AllocError>
        ensures { IfOk result (λ lines. items_of lines.items
            ≡ rest_of (pending_of self sides.Client) ++ rest_of (pending_of self sides.Server)) }
    {
        let Trace {
            alloc,
            client,
            server,
            ..
        } = self;
        let mut lines = Vec::new(alloc);
        let of_client = client.end()?;
        push_rest(&mut lines, time, Side::Client, of_client)?;
        let of_server = server.end()?;
        push_rest(&mut lines, time, Side::Server, of_server)?;
        Ok(lines)
    }
}

/// A line for each item of a side, in order.
#[tactic(auto, using(crate::proofs::Lines::items_of_push))]
fn lines_of(
    alloc: Global,
    known: &mut TraceState,
    time: u64,
    side: Side,
    items: Vec<Item>,
) -> Result<Vec<Line>, AllocError>
    ensures { IfOk result (λ lines. items_of lines.items ≡ items.items) }
{
    let mut lines = Vec::new(alloc);
    'items: for item in items {
        let told = known.tell(side, &item)?;
        lines.push(Line {
            time,
            side,
            item,
            told,
        })?;
    }
    Ok(lines)
}

/// Pushes the line of what a side has left over, where there is any.
#[tactic(auto, using(crate::proofs::Lines::items_of_push))]
fn push_rest(
    lines: &mut Vec<Line>,
    time: u64,
    side: Side,
    rest: Option<Item>,
) -> Result<(), AllocError>
    ensures { OnOk result (items_of lines.new.items
        ≡ items_of lines.old.items ++ item_list rest) }
{
    let Some(item) = rest else {
        return Ok(());
    };
    lines.push(Line {
        time,
        side,
        item,
        told: FrameMeaning::Nothing,
    })?;
    Ok(())
}
