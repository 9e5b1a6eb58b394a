//! The frames of a connection, each with what it changes.

ghost use Rattle.std.specs.Prelude.{
  ◌≡◌,
  ℕ,
  List,
  [],
  ◌∷◌,
  ◌<◌,
  ◌^◌,
  ◌&&◌,
  not,
  is_some,
  true,
  false,
  Some,
  None,
  IfOk,
  IfSome,
  IfNone,
};
ghost use Rattle.outwriter.specs.States.{over_on};

use crate::blocks::HeaderBlock;
use crate::due::Due;
use crate::frames::{
    make_first_settings, make_goaway, make_ping, make_ping_ack, make_reset, make_settings_ack,
    make_update,
};
use crate::out_frame::OutFrame;
use crate::outbound::{Outbound, is_stream};
use crate::stream::encoded;
use crate::stream_state::Over;
use bytes::Bytes;
use h2frame::{ErrorCode, StreamId};
use lists::{Field, Sequence};
use reasons::Reason;
use std::alloc::AllocError;

impl Outbound {
    ghost use Rattle.outwriter.specs.declared.due.Due.TheVariants as due_kind;
    ghost use Rattle.outwriter.specs.CoreChanges.{may_write as may_write_on};
    ghost use Rattle.outwriter.specs.States.{is_reset, owed_on};
    ghost use Rattle.outwriter.specs.Frames.{IsSound};
    ghost use Rattle.outwriter.specs.Steps.{Step};
    ghost use Rattle.outwriter.specs.Histories.{is_stream as is_number};
    ghost use Rattle.outwriter.specs.CallState.{AreOver, IsOwn, OwnOrRests};
    ghost use Rattle.outwriter.specs.ToldByNow.{TellsBlock, OwnByDue, OwnOfDue};
    ghost use Rattle.outwriter.specs.RunState.{
      BeginsBlock,
      Progress,
      Stays,
      IsBetween,
      Writes,
      WritesIf,
      WritesDue,
      WritesOrSkips,
      MirrorsOf,
    };

    /// SETTINGS, which come first.
    pub(crate) fn first_frame(&mut self) -> OutFrame
        requires begun { self.old.begun ≡ false }
        requires going { self.old.gone ≡ false }
        ensures sound { IsSound result }
        ensures written { Writes result self.old self.new }
        ensures own { IsOwn result self.old self.new }
    {
        self.begun = true;
        make_first_settings()
    }

    /// What comes before anything of the open calls: the rest of a header block, what is due, and
    /// credit.
    pub(crate) fn own_frame(&mut self) -> Result<Option<OutFrame>, AllocError>
        requires begun { self.old.begun ≡ true }
        requires going { self.old.gone ≡ false }
        ensures sound { IfOk result (λ o. IfSome o IsSound) }
        ensures frame { IfOk result (λ o. Progress o self.old self.new) }
        ensures none { IfOk result
            (λ o. IfNone o ((self.old.block ≡ None) × (self.new.due.items ≡ [])
            × ((id : ℕ) → owed_on self.new.states id ≡ 0))) }
        ensures own { IfOk result (λ o. OwnOrRests o self.old self.new) }
    {
        if let Some(frame) = self.block_frame()? {
            return Ok(Some(frame));
        }
        if let Some(frame) = self.due_frame()? {
            return Ok(Some(frame));
        }
        self.credit_frame()
    }

    /// The next frame of the header block that was begun, if one was.
    pub(crate) fn block_frame(&mut self) -> Result<Option<OutFrame>, AllocError>
        requires begun { self.old.begun ≡ true }
        requires going { self.old.gone ≡ false }
        ensures sound { IfOk result (λ o. IfSome o IsSound) }
        ensures frame { IfOk result (λ o. WritesIf o self.old self.new) }
        ensures none { IfOk result (λ o. IfNone o (self.old.block ≡ None)) }
        ensures own { IfOk result (λ o. OwnOrRests o self.old self.new) }
    {
        let Some(block) = self.block.take() else {
            return Ok(None);
        };
        let (frame, rest) = block.cut()?;
        self.block = rest;
        Ok(Some(frame))
    }

    /// The next frame that is due, if there is one. A stream that is over isn't refused or reset
    /// any more, and one that was reset isn't refused.
    pub(crate) fn due_frame(&mut self) -> Result<Option<OutFrame>, AllocError>
        requires { IsBetween self.old }
        ensures sound { IfOk result (λ o. IfSome o IsSound) }
        ensures frame { IfOk result (λ o. IfSome o (λ frame. Writes frame self.old self.new)) }
        ensures none { IfOk result (λ o. IfNone o (self.new.due.items ≡ [])) }
        ensures own { IfOk result (λ o. OwnOrRests o self.old self.new) }
        ensures still { IfOk result
            (λ o. IfNone o ((run : List Step) → MirrorsOf run self.old
            → MirrorsOf run self.new)) }
        ensures between { IfOk result (λ o. IfNone o (IsBetween self.new)) }
    {
        while let Some(due) = self.due.pop_front() {
            if let Some(frame) = self.frame_of_due(due)? {
                return Ok(Some(frame));
            }
        }
        Ok(None)
    }

    /// The frame that is due; none for a stream that is over, or for the refusal of one that was
    /// reset.
    fn frame_of_due(&mut self, due: Due) -> Result<Option<OutFrame>, AllocError>
        requires { IsBetween self.old }
        ensures sound { IfOk result (λ o. IfSome o IsSound) }
        ensures written { IfOk result (λ o. WritesOrSkips due o self.old self.new) }
        ensures own { IfOk result (λ o. OwnOfDue due o self.old self.new) }
        ensures dropped { IfOk result (λ o. IfNone o (AreOver self.old (due ∷ []))) }
    {
        match due {
            Due::SettingsAck => Ok(Some(self.settings_ack())),
            Due::PingAck(bytes) => Ok(Some(self.ping_ack(bytes)?)),
            Due::Ping(bytes) => Ok(Some(self.ping(bytes)?)),
            Due::Goaway(last, reason) => Ok(Some(self.goaway_frame(last, reason)?)),
            Due::Reset(id, code) => {
                if !self.may_end(id) {
                    return Ok(None);
                }
                Ok(Some(self.reset_frame(id, code)?))
            }
            Due::Refuse(id, fields) => {
                if !self.may_write(id) {
                    return Ok(None);
                }
                Ok(Some(self.refusal(id, fields)?))
            }
        }
    }

    fn settings_ack(&mut self) -> OutFrame
        requires { IsBetween self.old }
        ensures sound { IsSound result }
        ensures written { WritesDue due_kind.SettingsAck result self.old self.new }
        ensures own { OwnByDue due_kind.SettingsAck result self.old self.new }
    {
        make_settings_ack()
    }

    fn ping_ack(&mut self, bytes: [u8; 8]) -> Result<OutFrame, AllocError>
        requires { IsBetween self.old }
        ensures sound { IfOk result IsSound }
        ensures written { IfOk result
            (λ frame. WritesDue (due_kind.PingAck bytes) frame self.old self.new) }
        ensures own { IfOk result
            (λ frame. OwnByDue (due_kind.PingAck bytes) frame self.old self.new) }
    {
        make_ping_ack(&mut self.small, bytes)
    }

    fn ping(&mut self, bytes: [u8; 8]) -> Result<OutFrame, AllocError>
        requires { IsBetween self.old }
        ensures sound { IfOk result IsSound }
        ensures written { IfOk result
            (λ frame. WritesDue (due_kind.Ping bytes) frame self.old self.new) }
        ensures own { IfOk result
            (λ frame. OwnByDue (due_kind.Ping bytes) frame self.old self.new) }
    {
        make_ping(&mut self.small, bytes)
    }

    fn goaway_frame(&mut self, last: StreamId, reason: Reason) -> Result<OutFrame, AllocError>
        requires { IsBetween self.old }
        ensures sound { IfOk result IsSound }
        ensures written { IfOk result
            (λ frame. WritesDue (due_kind.Goaway last reason) frame self.old self.new) }
        ensures own { IfOk result
            (λ frame. OwnByDue (due_kind.Goaway last reason) frame self.old self.new) }
    {
        let frame = make_goaway(&mut self.small, last, reason)?;
        self.gone = reason.number() != 0;
        Ok(frame)
    }

    /// Whether the number is a stream's, and the stream isn't over.
    pub(crate) fn may_end(&self, id: StreamId) -> bool
        ensures number { result ≡ true → id < 2 ^ 31 }
        ensures stream { result ≡ true → 0 < id }
        ensures open { result ≡ true → over_on self.now.states id ≡ None }
        ensures is { result ≡ true → is_number id ≡ true }
        ensures value { result ≡ (is_number id && not (is_some (over_on self.now.states id))) }
    {
        is_stream(id) && self.states.state(id).over().is_none()
    }

    /// Whether the number is a stream's, and the stream neither is over nor was reset.
    pub(crate) fn may_write(&self, id: StreamId) -> bool
        ensures number { result ≡ true → id < 2 ^ 31 }
        ensures stream { result ≡ true → 0 < id }
        ensures open { result ≡ true → over_on self.now.states id ≡ None }
        ensures unreset { result ≡ true → is_reset self.now.states id ≡ false }
        ensures is { result ≡ true → is_number id ≡ true }
        ensures value { result ≡ may_write_on self.now id }
    {
        let state = self.states.state(id);
        is_stream(id) && state.over().is_none() && !state.is_reset()
    }

    fn reset_frame(&mut self, id: StreamId, code: ErrorCode) -> Result<OutFrame, AllocError>
        requires between { IsBetween self.old }
        requires stream { 0 < id }
        requires number { id < 2 ^ 31 }
        requires is { is_number id ≡ true }
        requires open { over_on self.old.states id ≡ None }
        ensures sound { IfOk result IsSound }
        ensures written { IfOk result
            (λ frame. WritesDue (due_kind.Reset id code) frame self.old self.new) }
        ensures own { IfOk result
            (λ frame. OwnByDue (due_kind.Reset id code) frame self.old self.new) }
    {
        let frame = make_reset(&mut self.small, id, code)?;
        self.states.end(id, Over::RstStream)?;
        Ok(frame)
    }

    /// The one header block of a stream.
    fn refusal(&mut self, id: StreamId, fields: Sequence<Field>) -> Result<OutFrame, AllocError>
        requires between { IsBetween self.old }
        requires stream { 0 < id }
        requires number { id < 2 ^ 31 }
        requires open { over_on self.old.states id ≡ None }
        requires unreset { is_reset self.old.states id ≡ false }
        ensures sound { IfOk result IsSound }
        ensures written { IfOk result
            (λ frame. WritesDue (due_kind.Refuse id fields) frame self.old self.new) }
        ensures own { IfOk result
            (λ frame. OwnByDue (due_kind.Refuse id fields) frame self.old self.new) }
    {
        let bytes = encoded(&mut self.encoder, fields.as_slice())?;
        self.states.end(id, Over::EndStream)?;
        self.headers_frame(id, true, bytes)
    }

    /// The credit that is owed on the connection or on a stream, if any is.
    pub(crate) fn credit_frame(&mut self) -> Result<Option<OutFrame>, AllocError>
        requires between { IsBetween self.old }
        ensures sound { IfOk result (λ o. IfSome o IsSound) }
        ensures frame { IfOk result (λ o. IfSome o (λ frame. Writes frame self.old self.new)) }
        ensures none { IfOk result (λ o. IfNone o ((id : ℕ) → owed_on self.new.states id ≡ 0)) }
        ensures still { IfOk result (λ o. IfNone o (Stays self.old self.new × IsBetween self.new)) }
        ensures due { self.new.due ≡ self.old.due }
        ensures own { IfOk result (λ o. OwnOrRests o self.old self.new) }
    {
        let Some((id, n)) = self.states.next() else {
            return Ok(None);
        };
        Ok(Some(make_update(&mut self.small, id, n)?))
    }

    /// The first frame of a header block, whose rest is kept.
    pub(crate) fn headers_frame(
        &mut self,
        id: StreamId,
        ends: bool,
        bytes: Bytes,
    ) -> Result<OutFrame, AllocError>
        requires between { IsBetween self.old }
        requires stream { 0 < id }
        requires number { id < 2 ^ 31 }
        ensures sound { IfOk result IsSound }
        ensures begins { IfOk result (λ frame. BeginsBlock id ends bytes frame self.old self.new) }
        ensures tells { IfOk result (λ frame. TellsBlock id ends bytes frame self.old self.new) }
    {
        let block = HeaderBlock {
            id,
            ends,
            begun: false,
            rest: bytes,
        };
        let (frame, rest) = block.cut()?;
        self.block = rest;
        Ok(frame)
    }
}
