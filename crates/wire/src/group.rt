//! The groups of cases.

use crate::rows;

/// What a group of cases is about.
#[derive(Clone, Copy)]
pub enum Group {
    /// The preface and the first frame.
    Start,
    /// Frames by themselves: types, sizes, padding, stream ids.
    Conn,
    /// Header blocks.
    Hpack,
    /// Frames in each state of a stream, and malformed requests.
    Stream,
    /// Windows.
    Flow,
    /// SETTINGS, PING, GOAWAY, RST_STREAM, PRIORITY.
    Control,
    /// Calls.
    Grpc,
}

impl Group {
    /// All groups, in the order in which they are run.
    pub const ALL: [Group; 7] = [
        Group::Start,
        Group::Conn,
        Group::Hpack,
        Group::Stream,
        Group::Flow,
        Group::Control,
        Group::Grpc,
    ];

    /// Its name.
    pub fn name(self) -> &'static str {
        match self {
            Group::Start => "start",
            Group::Conn => "conn",
            Group::Hpack => "hpack",
            Group::Stream => "stream",
            Group::Flow => "flow",
            Group::Control => "control",
            Group::Grpc => "grpc",
        }
    }

    /// The texts of its cases, in their order.
    pub fn texts(self) -> &'static [&'static str] {
        match self {
            Group::Start => &[rows::start::ROWS],
            Group::Conn => &[rows::conn::ROWS, rows::lengths::ROWS],
            Group::Hpack => &[rows::hpack::ROWS],
            Group::Stream => &[
                rows::states::ROWS,
                rows::blocks::ROWS,
                rows::malformed::ROWS,
            ],
            Group::Flow => &[rows::windows::ROWS],
            Group::Control => &[rows::control::ROWS],
            Group::Grpc => &[
                rows::calls::ROWS,
                rows::heads::ROWS,
                rows::messages::ROWS,
                rows::metadata::ROWS,
            ],
        }
    }
}
