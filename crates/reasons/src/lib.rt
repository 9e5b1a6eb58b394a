//! Why a server ends a connection, as GOAWAY says it (RFC 9113, sections 5.4.1 and 6.8): the code,
//! and the debug data, one line of English for the author of the client. The texts are those of the
//! log (`connlog`), without the figures of the connection.
#![tactic(auto)]

ghost use Rattle.std.specs.Prelude.{◌≡◌, ◌≤◌, length};
ghost use Rattle.h2frame.specs.ErrorCode.{error_number};
ghost use Rattle.reasons.specs.Codes.{code_of};
ghost use Rattle.reasons.specs.Texts.{
  text_of,
  max_text,
  frame_text,
  hpack_text,
  setting_text,
  unbegun_text,
};

use h2frame::{ErrorCode, FrameFault, FrameKind, SettingId};
use hpack_codec::HpackFault;

/// Why a connection ends.
#[derive(Clone, Copy, Debug, PartialEq, Eq)]
pub enum Reason {
    /// No reason but this code.
    Code(ErrorCode),
    /// The bytes depart from the preface.
    Preface,
    /// A frame other than SETTINGS came first.
    First,
    /// A frame can't be read.
    Frame(FrameFault),
    /// PUSH_PROMISE came.
    Push,
    /// CONTINUATION came where no header block is unfinished.
    Lone,
    /// Another frame came inside a header block.
    Interrupted,
    /// A header block is longer than the server takes.
    BlockTooLong,
    /// A header block can't be read.
    Hpack(HpackFault),
    /// This parameter of SETTINGS has a value that it may not have.
    Setting(SettingId),
    /// A frame of this type came on a stream where it is an error of the connection, with this
    /// code.
    Stream(FrameKind, ErrorCode),
    /// DATA came past the connection's window.
    Overrun,
    /// The peer makes a window of what is sent larger than 2^31 - 1 bytes.
    Window,
    /// There was no memory for what came.
    Memory,
}

impl Reason {
    /// The code of GOAWAY.
    pub fn code(self) -> ErrorCode
        ensures { result ≡ code_of self }
    {
        match self {
            Reason::Code(code) | Reason::Stream(_, code) => code,
            Reason::Preface | Reason::First | Reason::Push | Reason::Lone | Reason::Interrupted =>
                ErrorCode::ProtocolError,
            Reason::Frame(fault) => fault.error_code(),
            Reason::BlockTooLong | Reason::Hpack(HpackFault::TooLarge) => {
                ErrorCode::EnhanceYourCalm
            }
            Reason::Hpack(_) => ErrorCode::CompressionError,
            Reason::Setting(SettingId::InitialWindowSize) => ErrorCode::FlowControlError,
            Reason::Setting(_) => ErrorCode::ProtocolError,
            Reason::Overrun | Reason::Window => ErrorCode::FlowControlError,
            Reason::Memory => ErrorCode::InternalError,
        }
    }

    /// The number of the code.
    pub fn number(self) -> u32
        ensures { result ≡ error_number (code_of self) }
    {
        self.code().code()
    }

    /// The debug data of GOAWAY.
    pub fn text(self) -> &'static str
        ensures text { result.now ≡ text_of self }
        ensures short { length result.now ≤ max_text }
    {
        match self {
            Reason::Code(_) => "",
            Reason::Preface => "the bytes depart from the preface (RFC 9113, 3.4)",
            Reason::First => "another frame than SETTINGS came first (RFC 9113, 3.4)",
            Reason::Frame(fault) => frame_text(fault),
            Reason::Push => "PUSH_PROMISE, which no client may send (RFC 9113, 8.4)",
            Reason::Lone => "CONTINUATION outside a header block (RFC 9113, 6.10)",
            Reason::Interrupted => "another frame inside a header block (RFC 9113, 4.3)",
            Reason::BlockTooLong => "a header block of over 65,536 bytes",
            Reason::Hpack(fault) => hpack_text(fault),
            Reason::Setting(id) => setting_text(id),
            Reason::Stream(kind, _) => unbegun_text(kind),
            Reason::Overrun => "DATA past the window of the connection (RFC 9113, 6.9.1)",
            Reason::Window => {
                "a window over 2,147,483,647, by WINDOW_UPDATE or setting 4 (RFC 9113, 6.9.1, 6.9.2)"
            }
            Reason::Memory => "out of memory",
        }
    }
}

fn frame_text(fault: FrameFault) -> &'static str
    ensures text { result.now ≡ frame_text fault }
    ensures short { length result.now ≤ max_text }
{
    match fault {
        FrameFault::TooLong => "a frame of over 16,384 bytes (RFC 9113, 4.2)",
        FrameFault::BadLength => "a frame of a length that its type may not have (RFC 9113, 6)",
        FrameFault::BadPadding => "a frame with more padding than bytes (RFC 9113, 6.1, 6.2)",
        FrameFault::WrongStream => {
            "a frame of a stream on stream 0, or one of the connection on a stream (RFC 9113, 6)"
        }
        FrameFault::ZeroIncrement(_) => "WINDOW_UPDATE of 0, wanted more (RFC 9113, 6.9)",
        FrameFault::OutOfMemory => "out of memory",
    }
}

fn hpack_text(fault: HpackFault) -> &'static str
    ensures text { result.now ≡ hpack_text fault }
    ensures short { length result.now ≤ max_text }
{
    match fault {
        HpackFault::Index => "an index that names no field (RFC 7541, 6.1)",
        HpackFault::Integer => {
            "an integer over 4,294,967,295, or of over six bytes (RFC 7541, 5.1)"
        }
        HpackFault::Huffman => "a text that is no Huffman text (RFC 7541, 5.2)",
        HpackFault::SizeUpdate => {
            "a table of over 4,096 bytes, or one behind the first field (RFC 7541, 4.2, 6.3)"
        }
        HpackFault::Truncated => "a header block that ends inside a field (RFC 7541, 6)",
        HpackFault::TooLarge => "fields of over 65,536 bytes",
        HpackFault::OutOfMemory | HpackFault::Dead => "out of memory",
    }
}

fn setting_text(id: SettingId) -> &'static str
    ensures text { result.now ≡ setting_text id }
    ensures short { length result.now ≤ max_text }
{
    match id {
        SettingId::EnablePush => "setting 2, wanted 0 or 1 (RFC 9113, 6.5.2)",
        SettingId::InitialWindowSize => {
            "setting 4, wanted at most 2,147,483,647 (RFC 9113, 6.5.2)"
        }
        SettingId::MaxFrameSize => "setting 5, wanted 16,384 to 16,777,215 (RFC 9113, 6.5.2)",
        _ => "a setting has a value that it may not have (RFC 9113, 6.5.2)",
    }
}

/// The text for a frame on a stream that wasn't begun.
fn unbegun_text(kind: FrameKind) -> &'static str
    ensures text { result.now ≡ unbegun_text kind }
    ensures short { length result.now ≤ max_text }
{
    match kind {
        FrameKind::Headers => {
            "HEADERS on an even stream, or on one below the greatest that was begun (RFC 9113, 5.1.1)"
        }
        FrameKind::Data => "DATA on a stream that wasn't begun (RFC 9113, 5.1)",
        FrameKind::RstStream => "RST_STREAM on a stream that wasn't begun (RFC 9113, 5.1)",
        FrameKind::WindowUpdate => "WINDOW_UPDATE on a stream that wasn't begun (RFC 9113, 5.1)",
        _ => "a frame on a stream that wasn't begun (RFC 9113, 5.1)",
    }
}
