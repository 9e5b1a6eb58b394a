//! Bytes of which a front is shown.

use std::alloc::{AllocError, Global};

/// The most bytes of a name or a value that are shown.
const SHOWN: usize = 80;

/// The front of a name, a value or a text that was sent, at most 80 bytes of it; what isn't UTF-8
/// is replaced.
pub fn shown(alloc: Global, bytes: &[u8]) -> Result<String, AllocError> {
    let front = match bytes.split_at_checked(SHOWN) {
        Some((front, _)) => front,
        None => bytes,
    };
    String::from_utf8_lossy(alloc, front)
}
