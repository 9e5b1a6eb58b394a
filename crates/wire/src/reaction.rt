//! What a server under test may do, as the rows have it.
//!
//! A row's lawful reactions are lines of `want`, any of which suffices; a line may have several,
//! which all have to hold, with `and` between them. Each is a word, the stream where there is one,
//! and numbers or a text:
//!
//! - `connection 1 6`: GOAWAY with one of these errors, or the end of the connection without one
//!   that says an error.
//! - `goaway 1`: GOAWAY with one of these errors. `closed`: the end of the connection.
//! - `reset 3 5`: RST_STREAM of stream 3 with one of the errors after it; any error if none is
//!   named.
//! - `stream 3 5`: that, or `connection` with one of these errors: an endpoint may end the
//!   connection in place of a stream (RFC 9113, section 5.4.1).
//! - `status 1 13`: stream 1 ended with one of these statuses of gRPC, its response being
//!   `:status` 200.
//! - `http 1 415`: the response on stream 1 has one of these `:status`; any where none is named.
//! - `answered 1`: stream 1 ended with END_STREAM. `open 1`: it neither ended nor was reset.
//!   `live 1`: it wasn't reset. `nothing 1`: nothing came on it.
//! - `rejected 1`: its response has an `:status` of 400 or more, or ended with a status other
//!   than 0. `failed 1`: that, or it was reset.
//! - `data 1 10`: 10 bytes of DATA came on stream 1. `most 1 10`: no more than that; for stream 0:
//!   on all streams. `begun 1`: some DATA. `total 65535`: this many bytes on all streams.
//! - `largest 16384`: no DATA frame had more bytes than that.
//! - `replies 1 4`: 4 whole messages came on stream 1. `reply 1 0801`: the last one is this.
//!   `has 1 0801`: it has these bytes in it.
//! - `head 1 NAME=VALUE`, `trailer 1 NAME=VALUE`: such a field came in the first, the last header
//!   block. `begins 1 NAME=VALUE`: a field of the first block begins so. `without 1 NAME`: no field
//!   of this name came. `single 1`: one header block came, and no DATA.
//! - `same 1 3`: both ended with one `:status` and one status of gRPC.
//! - `block 1 20`: the first header block on it begins with these bytes.
//! - `ping 0102..`: PING with ACK and these bytes came. `silent 0102..`: none did.
//! - `acks 2`: 2 SETTINGS were acknowledged. `first`: the server's first frame is SETTINGS.
//!   `settings`: all its SETTINGS are lawful.
//! - `orderly`: no DATA or HEADERS came on a stream after the server's own END_STREAM or
//!   RST_STREAM.
//! - `ignored`: the last PING was answered, and nothing was an error. `text`: what came are no
//!   frames, but text of HTTP/1.
//! - `crowded 1 7`: some stream was reset with such an error.

use crate::content::{Reading, read_content};
use crate::fault::WireFault;
use std::alloc::{AllocError, Global};

/// Numbers of which one is lawful.
pub type Codes = Vec<u32>;

#[derive(Drop)]
pub enum Reaction {
    Connection(Codes),
    Goaway(Codes),
    Closed,
    Reset {
        stream: u32,
        codes: Codes,
    },
    Stream {
        stream: u32,
        codes: Codes,
    },
    Status {
        stream: u32,
        codes: Codes,
    },
    Http {
        stream: u32,
        codes: Codes,
    },
    Answered(u32),
    Rejected(u32),
    Failed(u32),
    Open(u32),
    Live(u32),
    Nothing(u32),
    Data {
        stream: u32,
        count: u64,
    },
    Most {
        stream: u32,
        count: u64,
    },
    Begun(u32),
    Total(u64),
    Largest(u64),
    Replies {
        stream: u32,
        count: u64,
    },
    Reply {
        stream: u32,
        content: Vec<u8>,
    },
    Has {
        stream: u32,
        content: Vec<u8>,
    },
    Head {
        stream: u32,
        name: &'static str,
        value: &'static str,
    },
    Begins {
        stream: u32,
        name: &'static str,
        value: &'static str,
    },
    Trailer {
        stream: u32,
        name: &'static str,
        value: &'static str,
    },
    Without {
        stream: u32,
        name: &'static str,
    },
    Single(u32),
    Same {
        stream: u32,
        other: u32,
    },
    Block {
        stream: u32,
        front: Vec<u8>,
    },
    Ping(Vec<u8>),
    Silent(Vec<u8>),
    Acks(u64),
    First,
    Settings,
    Ignored,
    Orderly,
    Text,
    Crowded(Codes),
}

/// A way in which a case is passed.
#[derive(Drop)]
pub struct LawfulReaction {
    /// What has to hold, all of it.
    pub all: Vec<Reaction>,
}

/// Reads a line of lawful reactions.
pub fn read_lawful(
    alloc: Global,
    text: &'static str,
    reading: &Reading,
) -> Result<LawfulReaction, WireFault> {
    let mut all = Vec::new(alloc);
    for part in text.split(" and ") {
        all.push(read_reaction(alloc, part.trim(), reading)?)?;
    }
    Ok(LawfulReaction { all })
}

/// The first word of a text, and what follows the blank.
pub fn first_word(text: &'static str) -> (&'static str, &'static str) {
    match text.split_once(' ') {
        Some((word, rest)) => (word, rest.trim()),
        None => (text, ""),
    }
}

/// Reads a reaction.
pub fn read_reaction(
    alloc: Global,
    text: &'static str,
    reading: &Reading,
) -> Result<Reaction, WireFault> {
    let (word, rest) = first_word(text);
    match word {
        "closed" => Ok(Reaction::Closed),
        "first" => Ok(Reaction::First),
        "settings" => Ok(Reaction::Settings),
        "ignored" => Ok(Reaction::Ignored),
        "orderly" => Ok(Reaction::Orderly),
        "text" => Ok(Reaction::Text),
        "connection" => Ok(Reaction::Connection(read_codes(alloc, rest)?)),
        "goaway" => Ok(Reaction::Goaway(read_codes(alloc, rest)?)),
        "crowded" => Ok(Reaction::Crowded(read_codes(alloc, rest)?)),
        "ping" => Ok(Reaction::Ping(read_content(alloc, rest, reading)?)),
        "silent" => Ok(Reaction::Silent(read_content(alloc, rest, reading)?)),
        "acks" => Ok(Reaction::Acks(read_count(rest)?)),
        "total" => Ok(Reaction::Total(read_count(rest)?)),
        "largest" => Ok(Reaction::Largest(read_count(rest)?)),
        _ => {
            let (stream, rest) = first_word(rest);
            read_on_stream(alloc, word, read_stream(stream)?, rest, reading)
        }
    }
}

/// Reads a reaction on a stream: its word, and what follows the stream.
fn read_on_stream(
    alloc: Global,
    word: &'static str,
    stream: u32,
    rest: &'static str,
    reading: &Reading,
) -> Result<Reaction, WireFault> {
    match word {
        "answered" => Ok(Reaction::Answered(stream)),
        "rejected" => Ok(Reaction::Rejected(stream)),
        "failed" => Ok(Reaction::Failed(stream)),
        "open" => Ok(Reaction::Open(stream)),
        "live" => Ok(Reaction::Live(stream)),
        "nothing" => Ok(Reaction::Nothing(stream)),
        "begun" => Ok(Reaction::Begun(stream)),
        "single" => Ok(Reaction::Single(stream)),
        "without" => Ok(Reaction::Without { stream, name: rest }),
        "head" | "begins" | "trailer" => read_field(word, stream, rest),
        "data" => Ok(Reaction::Data {
            stream,
            count: read_count(rest)?,
        }),
        "most" => Ok(Reaction::Most {
            stream,
            count: read_count(rest)?,
        }),
        "replies" => Ok(Reaction::Replies {
            stream,
            count: read_count(rest)?,
        }),
        "same" => Ok(Reaction::Same {
            stream,
            other: read_stream(rest)?,
        }),
        "reply" => Ok(Reaction::Reply {
            stream,
            content: read_content(alloc, rest, reading)?,
        }),
        "has" => Ok(Reaction::Has {
            stream,
            content: read_content(alloc, rest, reading)?,
        }),
        "block" => Ok(Reaction::Block {
            stream,
            front: read_content(alloc, rest, reading)?,
        }),
        _ => read_codes_on_stream(word, stream, read_codes(alloc, rest)?),
    }
}

fn read_codes_on_stream(word: &str, stream: u32, codes: Codes) -> Result<Reaction, WireFault> {
    match word {
        "reset" => Ok(Reaction::Reset { stream, codes }),
        "stream" => Ok(Reaction::Stream { stream, codes }),
        "status" => Ok(Reaction::Status { stream, codes }),
        "http" => Ok(Reaction::Http { stream, codes }),
        _ => Err(WireFault::BadRow),
    }
}

fn read_field(word: &str, stream: u32, rest: &'static str) -> Result<Reaction, WireFault> {
    let (name, value) = rest.split_once('=').ok_or(WireFault::BadRow)?;
    Ok(match word {
        "head" => Reaction::Head {
            stream,
            name,
            value,
        },
        "begins" => Reaction::Begins {
            stream,
            name,
            value,
        },
        _ => Reaction::Trailer {
            stream,
            name,
            value,
        },
    })
}

/// The number of a stream.
pub fn read_stream(word: &str) -> Result<u32, WireFault> {
    word.parse::<u32>().ok().ok_or(WireFault::BadRow)
}

/// A number.
pub fn read_count(word: &str) -> Result<u64, WireFault> {
    word.parse::<u64>().ok().ok_or(WireFault::BadRow)
}

/// Numbers with blanks between them.
fn read_codes(alloc: Global, text: &str) -> Result<Codes, WireFault> {
    let mut codes = Vec::new(alloc);
    for word in text.split_whitespace() {
        codes.push(read_stream(word)?)?;
    }
    Ok(codes)
}

impl Reaction {
    /// Whether it is of a call's answer, which may come some time after the server has read the
    /// call.
    pub fn is_of_answer(&self) -> bool {
        match self {
            Reaction::Connection(_)
            | Reaction::Goaway(_)
            | Reaction::Reset { .. }
            | Reaction::Stream { .. }
            | Reaction::Crowded(_)
            | Reaction::Ping(_)
            | Reaction::Silent(_)
            | Reaction::Acks(_)
            | Reaction::First
            | Reaction::Settings
            | Reaction::Ignored
            | Reaction::Text => false,
            _ => true,
        }
    }
}

/// Adds numbers with `or` between them.
pub fn push_codes(text: &mut String, codes: &[u32]) -> Result<(), AllocError> {
    for (place, code) in codes.iter().enumerate() {
        if place > 0 {
            text.push_str(" or ")?;
        }
        write!(text, "{code}")?;
    }
    Ok(())
}
