//! A port that is written with a sign. Numbers are read with a plus or without, but no port is
//! written so.

use words::Reason;

/// Why the port of these words isn't one, if it has a sign.
pub fn signed_port(words: &[String]) -> Option<Reason<'_>> {
    let mut is_next = false;
    for word in words {
        let word = word.as_str();
        let value = if is_next {
            Some(word)
        } else {
            word.strip_prefix("--port=")
        };
        if let Some(value) = value {
            if is_signed(value) {
                return Some(Reason::WrongValue {
                    option: "--port",
                    value,
                    right: "a port, 1 to 65535",
                });
            }
        }
        is_next = word == "--port";
    }
    None
}

/// Whether it is a number after a sign.
fn is_signed(value: &str) -> bool {
    match value.as_bytes() {
        [b'+' | b'-', digits @ ..] => {
            !digits.is_empty() && digits.iter().all(|digit| digit.is_ascii_digit())
        }
        _ => false,
    }
}
