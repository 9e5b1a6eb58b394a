//! What is written over the public calls alone, to show that they suffice.

pub mod by_index;
pub mod no_message;
pub mod whole_call;
