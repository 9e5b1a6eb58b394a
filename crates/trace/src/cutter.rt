//! Cutting the bytes of one side into its preface and frames, in whatever pieces they come (RFC
//! 9113, sections 3.4 and 4.1).

ghost use Rattle.std.specs.Prelude.{
  ◌≡◌,
  ◌<◌,
  ◌≤◌,
  ◌^◌,
  ◌++◌,
  ℕ,
  List,
  [],
  false,
  length,
  drop,
  IfOk,
  IfNone,
  IfSome,
  IsTrue,
  OnOk,
};
ghost use Rattle.h2frame.specs.FrameList.{BeginsWith};
ghost use Rattle.h2frame.specs.Reading.{head_at};
ghost use Rattle.trace.specs.declared.item.SideStage.TheVariants as stages;
ghost use Rattle.trace.specs.Cuts.{Cut, IsUnfinished, Takes, item_list, preface, rest_of};

use crate::item::{Item, SideStage};
use bytes::{Bytes, BytesMut};
use h2frame::{Flags, FrameHead, FrameKind};
use std::alloc::{AllocError, Global};
use std::marker::Model;

/// The bytes of a frame's head.
const HEAD_LEN: usize = 9;

/// The bytes of the preface, and what they are.
const PREFACE_LEN: usize = 24;

const PREFACE: &[u8] = b"PRI * HTTP/2.0\r\n\r\nSM\r\n\r\n";

/// Cuts the bytes of one side. A clause sees what comes next, and the bytes that came and aren't a
/// whole item.
#[derive(Drop)]
pub struct Cutter {
    stage: SideStage,
    kept: BytesMut,
}

impl Model for Cutter {
    ghost use Rattle.trace.specs.Cuts.{PendingBytes};

    ghost Value = { PendingBytes };

    ghost view = { λ c. record { stage = c.stage; bytes = c.kept.items } };
}

impl Cutter {
    /// No bytes came. It takes no memory yet.
    pub fn new(alloc: Global, stage: SideStage) -> Cutter
        ensures { result ≡ record { stage = stage; bytes = [] } }
    {
        Cutter {
            stage,
            kept: BytesMut::new(alloc),
        }
    }

    /// Takes the next piece of the bytes, and answers the items that it makes whole.
    pub fn cut(&mut self, piece: &[u8]) -> Result<Vec<Item>, AllocError>
        // Each byte of what was kept and of the piece is in one of them, in order, or is kept.
        ensures cut { IfOk result (λ cut.
            Cut self.old.stage (self.old.bytes ++ piece.now) cut.items
            self.new.stage self.new.bytes) }
        ensures all { OnOk result (IsUnfinished self.new.stage self.new.bytes) }
    {
        self.kept.extend_from_slice(piece)?;
        items_of(&mut self.stage, &mut self.kept)
    }

    /// The bytes that are left over, if there are any. No more bytes follow.
    #[tactic(auto, using(crate::proofs::Cutting::no_leftover, crate::proofs::Cutting::a_leftover))]
    pub fn end(self) -> Result<Option<Item>, AllocError>
        ensures { IfOk result (λ end. item_list end ≡ rest_of self) }
    {
        let Cutter { mut kept, .. } = self;
        if kept.is_empty() {
            return Ok(None);
        }
        let length = kept.len();
        let rest = kept.freeze_to(length)?;
        Ok(Some(Item::Rest(rest)))
    }
}

/// Takes the whole items off the front of what is kept.
#[tactic(auto, using(crate::proofs::Cutting::cut_push, crate::proofs::Cutting::taken_is_shorter))]
fn items_of(stage: &mut SideStage, kept: &mut BytesMut) -> Result<Vec<Item>, AllocError>
    ensures cut { IfOk result (λ cut.
        Cut stage.old kept.old.items cut.items stage.new kept.new.items) }
    ensures all { OnOk result (IsUnfinished stage.new kept.new.items) }
{
    let mut items = Vec::new(*kept.allocator());
    while let Some(item) = first_item(*stage, kept)? {
        *stage = SideStage::InFrames;
        items.push(item)?;
    }
    Ok(items)
}

/// Takes the first item off the front, where it is whole.
fn first_item(stage: SideStage, kept: &mut BytesMut) -> Result<Option<Item>, AllocError>
    ensures some { IfOk result (λ found. IfSome found
        (λ item. Takes stage kept.old.items item kept.new.items)) }
    ensures none { IfOk result (λ found. IfNone found (IsUnfinished stage kept.old.items)) }
    ensures kept { IfOk result (λ found. IfNone found (kept.new.items ≡ kept.old.items)) }
{
    match stage {
        SideStage::BeforePreface => Ok(first_preface(kept)),
        SideStage::InFrames => first_frame(kept),
    }
}

#[tactic(auto, using(crate::proofs::Cutting::first_preface))]
fn first_preface(kept: &mut BytesMut) -> Option<Item>
    ensures some { IfSome result
        (λ item. Takes stages.BeforePreface kept.old.items item kept.new.items) }
    ensures none { IfNone result (IsUnfinished stages.BeforePreface kept.old.items) }
    ensures kept { IfNone result (kept.new.items ≡ kept.old.items) }
{
    if !begins_with_preface(kept.as_slice()) {
        return None;
    }
    kept.advance(PREFACE_LEN);
    Some(Item::Preface)
}

#[tactic(auto, using(crate::proofs::Cutting::preface_first, crate::proofs::Cutting::preface_taken))]
fn begins_with_preface(bytes: &[u8]) -> bool
    ensures yes { IsTrue result → bytes.now ≡ preface ++ drop 24 bytes.now }
    ensures no { result ≡ false → (rest : List ℕ) → bytes.now ≡ preface ++ rest → ⊥ }
    ensures long { IsTrue result → 24 ≤ length bytes.now }
{
    if bytes.len() < PREFACE_LEN {
        return false;
    }
    &bytes[..PREFACE_LEN] == PREFACE
}

#[tactic(auto, using(crate::proofs::Cutting::short_is_unfinished, crate::proofs::Cutting::begun_is_unfinished))]
fn first_frame(kept: &mut BytesMut) -> Result<Option<Item>, AllocError>
    ensures some { IfOk result (λ found. IfSome found
        (λ item. Takes stages.InFrames kept.old.items item kept.new.items)) }
    ensures none { IfOk result (λ found. IfNone found
        (IsUnfinished stages.InFrames kept.old.items)) }
    ensures kept { IfOk result (λ found. IfNone found (kept.new.items ≡ kept.old.items)) }
{
    let Some(head) = head_of(kept.as_slice()) else {
        return Ok(None);
    };
    let whole = HEAD_LEN + head.length as usize;
    if kept.len() < whole {
        return Ok(None);
    }
    let mut payload = kept.freeze_to(whole)?;
    payload.advance(HEAD_LEN);
    Ok(Some(Item::Frame(head, payload)))
}

/// The head that the first nine bytes spell, where they are there.
fn head_of(bytes: &[u8]) -> Option<FrameHead>
    ensures some { IfSome result (λ head. BeginsWith bytes.now head (drop 9 bytes.now)) }
    ensures none { IfNone result (length bytes.now < 9) }
{
    if bytes.len() < HEAD_LEN {
        return None;
    }
    Some(head_at(bytes))
}

#[tactic(auto, unfolding(h2frame::specs::Reading::head_at))]
fn head_at(bytes: &[u8]) -> FrameHead
    requires { 9 ≤ length bytes.now }
    ensures { result ≡ head_at bytes.now }
{
    let stream = u32::from_be_bytes([bytes[5], bytes[6], bytes[7], bytes[8]]);
    FrameHead {
        kind: FrameKind::from_code(bytes[3]),
        flags: Flags { bits: bytes[4] },
        stream: stream & 0x7fff_ffff,
        length: u32::from_be_bytes([0, bytes[0], bytes[1], bytes[2]]),
    }
}
