//! What is written over the public calls alone, to show that they suffice.

pub mod call_list;
