//! The limits of RFC 9113 that several crates share, and those of this server.
//!
//! `proofs/Entries.antt` has what the crates with a table of streams prove their look-ups by.
#![tactic(auto)]

/// The largest window that RFC 9113, section 6.9.1, allows: 2^31 - 1 bytes.
pub const MAX_WINDOW: u32 = 0x7fff_ffff;

/// The size of a new window, in bytes, until SETTINGS change it (RFC 9113, section 6.9.2).
pub const INITIAL_WINDOW: u32 = 65_535;

/// How many streams a client may open on a connection. What comes on streams after the last of them
/// is dropped.
pub const MAX_STREAMS: usize = 4_096;

/// How many calls of a connection may be live at once. SETTINGS_MAX_CONCURRENT_STREAMS says so to
/// the client (RFC 9113, section 6.5.2).
pub const MAX_LIVE: usize = 64;
