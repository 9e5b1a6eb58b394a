//! The numbers of the wire format and of faults, and what the crates call them: `names.rows`;
//! `fault-texts.rows` for the faults of header blocks and heads.

use anyhow::{Context, Result, bail, ensure};
use callhead::HeadFault;
use creditbook::BookFault;
use sendwindows::WindowFault;
use h2frame::{
    ErrorCode, Flags, FrameFault, FrameKind, PeerSetting, PeerSettings, SettingId, increment,
    ping_bytes,
};
use hpack_codec::HpackFault;
use rows::bytes_of;
use std::alloc::Global;
use std::fmt::Debug;

const FRAME_FAULTS: [FrameFault; 6] = [
    FrameFault::TooLong,
    FrameFault::BadLength,
    FrameFault::BadPadding,
    FrameFault::WrongStream,
    FrameFault::ZeroIncrement(3),
    FrameFault::OutOfMemory,
];

const WINDOW_FAULTS: [WindowFault; 4] = [
    WindowFault::Overflow,
    WindowFault::NoRoom,
    WindowFault::Unknown,
    WindowFault::OutOfMemory,
];

const BOOK_FAULTS: [BookFault; 7] = [
    BookFault::TooMany,
    BookFault::Draining,
    BookFault::CallWindow,
    BookFault::ConnectionWindow,
    BookFault::Overgiven,
    BookFault::Unknown,
    BookFault::OutOfMemory,
];

const BLOCK_FAULTS: [HpackFault; 8] = [
    HpackFault::Integer,
    HpackFault::Index,
    HpackFault::Huffman,
    HpackFault::SizeUpdate,
    HpackFault::Truncated,
    HpackFault::OutOfMemory,
    HpackFault::Dead,
    HpackFault::TooLarge,
];

pub const HEAD_FAULTS: [HeadFault; 5] = [
    HeadFault::Malformed,
    HeadFault::NotPost,
    HeadFault::NotGrpc,
    HeadFault::BadTimeout,
    HeadFault::OutOfMemory,
];

/// The fault of this name.
pub fn called<F: Copy + Debug>(alloc: Global, faults: &[F], name: &str) -> Result<F> {
    for fault in faults {
        if format!(in alloc; "{fault:?}")?.as_str() == name {
            return Ok(*fault);
        }
    }
    bail!("no such fault is called {name}")
}

/// What an error code, a parameter of SETTINGS or a type of frame is called, whose number has to be
/// this one.
fn push_name(answer: &mut String, what: &str, code: u32) -> Result<()> {
    let number = match what {
        "error" => {
            let error = ErrorCode::from_code(code);
            write!(answer, "{error:?}")?;
            error.code()
        }
        "setting" => {
            let setting = SettingId::from_code(u16::try_from(code)?);
            write!(answer, "{setting:?}")?;
            u32::from(setting.code())
        }
        _ => {
            let kind = FrameKind::from_code(u8::try_from(code)?);
            write!(answer, "{kind:?}")?;
            u32::from(kind.code())
        }
    };
    ensure!(number == code, "its number is {number}");
    Ok(())
}

/// What parameters with values tell, as 'NUMBER=VALUE'.
fn push_told(alloc: Global, answer: &mut String, parameters: &[&str]) -> Result<()> {
    let mut told = Vec::new(alloc);
    for parameter in parameters {
        let (id, value) = parameter.split_once('=').context("no value")?;
        let id = SettingId::from_code(u16::from_str_radix(id, 16)?);
        if let Some(setting) = PeerSetting::told(id, value.parse::<u32>()?) {
            told.push(setting)?;
        }
    }
    answer.push_str("told")?;
    for setting in PeerSettings::from(told).as_slice() {
        write!(answer, " {setting:?}")?;
    }
    Ok(())
}

/// The eight bytes of a PING, one after the other.
fn push_ping(alloc: Global, answer: &mut String, digits: &str) -> Result<()> {
    let bytes = bytes_of(alloc, digits)?;
    ensure!(bytes.len() == 8, "a PING has eight bytes");
    let content = ping_bytes(bytes.as_slice());
    answer.push_str(hex::encode(alloc, content.as_slice())?.as_str())?;
    Ok(())
}

fn flag_of(name: &str) -> Result<Flags> {
    Ok(match name {
        "NONE" => Flags::NONE,
        "ACK" => Flags::ACK,
        "END_STREAM" => Flags::END_STREAM,
        "END_HEADERS" => Flags::END_HEADERS,
        "PADDED" => Flags::PADDED,
        "PRIORITY" => Flags::PRIORITY,
        _ => bail!("no flag is called {name}"),
    })
}

/// The flags of all of the names.
fn flags_of(names: &[&str]) -> Result<Flags> {
    let mut flags = Flags::NONE;
    for name in names {
        flags = flags.with(flag_of(name)?);
    }
    Ok(flags)
}

/// A number and its name, or a name and its number.
pub fn answer(alloc: Global, words: &[&str], answer: &mut String) -> Result<()> {
    match words {
        ["told", parameters @ ..] => return push_told(alloc, answer, parameters),
        ["ping", digits] => return push_ping(alloc, answer, digits),
        ["flags", names @ ..] => {
            let bits = flags_of(names)?.bits;
            write!(answer, "{bits:02x}")?;
        }
        ["has", digits, names @ ..] => {
            let bits = u8::from_str_radix(digits, 16)?;
            let has = Flags { bits }.contains(flags_of(names)?);
            write!(answer, "{has}")?;
        }
        ["increment", digits] => {
            let bytes = u32::from_str_radix(digits, 16)?.to_be_bytes();
            write!(answer, "{}", increment(&bytes))?;
        }
        [what, _] if what.ends_with("Fault") => return faults(alloc, words, answer),
        [what, digits] => return push_name(answer, what, u32::from_str_radix(digits, 16)?),
        _ => bail!("the row says none of what there is to name"),
    }
    Ok(())
}

/// A fault by its name: its number, its text, and for a frame's fault the error code for the peer.
pub fn faults(alloc: Global, words: &[&str], answer: &mut String) -> Result<()> {
    match words {
        ["FrameFault", name] => {
            let fault = called(alloc, &FRAME_FAULTS, name)?;
            write!(
                answer,
                "{}, {:?}: {fault}",
                fault.code(),
                fault.error_code()
            )?;
        }
        ["WindowFault", name] => {
            let fault = called(alloc, &WINDOW_FAULTS, name)?;
            write!(answer, "{}: {fault}", fault.code())?;
        }
        ["BookFault", name] => {
            let fault = called(alloc, &BOOK_FAULTS, name)?;
            write!(answer, "{}: {fault}", fault.code())?;
        }
        ["block", name] => {
            let fault = called(alloc, &BLOCK_FAULTS, name)?;
            write!(answer, "{} {fault}", fault.code())?;
        }
        ["head", name] => {
            let fault = called(alloc, &HEAD_FAULTS, name)?;
            write!(answer, "{} {fault}", fault.code())?;
        }
        _ => bail!("the row names no fault"),
    }
    Ok(())
}
