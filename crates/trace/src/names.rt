//! The names of flags, settings and spellings.

use crate::spelling::Spelling;
use h2frame::{Flags, FrameHead, FrameKind, SettingId};
use std::fmt;

/// The flags of a frame, each after a blank: those that its type has by their names, and what is
/// left as a number.
#[derive(Clone, Copy)]
pub struct FlagNames(pub FrameHead);

/// A flag of frames of one type.
#[derive(Clone, Copy)]
struct FlagName {
    flag: Flags,
    name: &'static str,
}

impl fmt::Display for FlagNames {
    fn fmt<W: fmt::Write>(&self, f: &mut fmt::Formatter<W>) -> fmt::Result {
        let FrameHead { kind, flags, .. } = self.0;
        let mut left = flags.bits;
        for FlagName { flag, name } in flags_of(kind) {
            if flags.contains(*flag) {
                left &= !flag.bits;
                write!(f, " {name}")?;
            }
        }
        if left != 0 {
            write!(f, " flags 0x{left:02x}")?;
        }
        Ok(())
    }
}

/// The flags that frames of a type have (RFC 9113, section 6).
fn flags_of(kind: FrameKind) -> &'static [FlagName] {
    match kind {
        FrameKind::Data => DATA_FLAGS,
        FrameKind::Headers => HEADERS_FLAGS,
        FrameKind::PushPromise => PROMISE_FLAGS,
        FrameKind::Continuation => CONTINUATION_FLAGS,
        FrameKind::Settings | FrameKind::Ping => ACK_FLAGS,
        _ => &[],
    }
}

const END_STREAM: FlagName = FlagName {
    flag: Flags::END_STREAM,
    name: "END_STREAM",
};

const END_HEADERS: FlagName = FlagName {
    flag: Flags::END_HEADERS,
    name: "END_HEADERS",
};

const PADDED: FlagName = FlagName {
    flag: Flags::PADDED,
    name: "PADDED",
};

const PRIORITY: FlagName = FlagName {
    flag: Flags::PRIORITY,
    name: "PRIORITY",
};

const ACK: FlagName = FlagName {
    flag: Flags::ACK,
    name: "ACK",
};

const DATA_FLAGS: &[FlagName] = &[END_STREAM, PADDED];

const HEADERS_FLAGS: &[FlagName] = &[END_STREAM, END_HEADERS, PADDED, PRIORITY];

const PROMISE_FLAGS: &[FlagName] = &[END_HEADERS, PADDED];

const CONTINUATION_FLAGS: &[FlagName] = &[END_HEADERS];

const ACK_FLAGS: &[FlagName] = &[ACK];

/// The name of a parameter of SETTINGS (section 6.5.2).
#[derive(Clone, Copy)]
pub struct SettingName(pub SettingId);

impl fmt::Display for SettingName {
    fn fmt<W: fmt::Write>(&self, f: &mut fmt::Formatter<W>) -> fmt::Result {
        let name = match self.0 {
            SettingId::HeaderTableSize => "HEADER_TABLE_SIZE",
            SettingId::EnablePush => "ENABLE_PUSH",
            SettingId::MaxConcurrentStreams => "MAX_CONCURRENT_STREAMS",
            SettingId::InitialWindowSize => "INITIAL_WINDOW_SIZE",
            SettingId::MaxFrameSize => "MAX_FRAME_SIZE",
            SettingId::MaxHeaderListSize => "MAX_HEADER_LIST_SIZE",
            SettingId::Unknown(code) => return write!(f, "setting {code}"),
        };
        write!(f, "{name}")
    }
}

impl fmt::Display for Spelling {
    fn fmt<W: fmt::Write>(&self, f: &mut fmt::Formatter<W>) -> fmt::Result {
        match *self {
            Spelling::Indexed(index) => write!(f, "entry {index}"),
            Spelling::Added(0) => write!(f, "new entry"),
            Spelling::Added(index) => write!(f, "new entry with the name of {index}"),
            Spelling::Plain(0) => write!(f, "no entry"),
            Spelling::Plain(index) => write!(f, "no entry, with the name of {index}"),
            Spelling::Never(0) => write!(f, "never an entry"),
            Spelling::Never(index) => write!(f, "never an entry, with the name of {index}"),
        }
    }
}
