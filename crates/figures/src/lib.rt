//! Names of frames and errors, numbers as text, and the rule that a field breaks.
//!
//! Read `numbers` for counts and lengths, `names` for frames and error codes (RFC 9113, sections 6
//! and 7), `rules` for what is wanted of a frame by itself, `fields` for which rule a field breaks,
//! and `text` for bytes of which a front is shown.
#![tactic(auto)]

mod fields;
mod names;
mod numbers;
mod rules;
mod text;

pub use fields::{BrokenRule, FieldRule, field_rule};
pub use names::{ErrorName, FrameName, KindName, error_name};
pub use numbers::{ByteCount, GroupedNumber, byte_count};
pub use rules::{section_of, wanted_length};
pub use text::shown;
