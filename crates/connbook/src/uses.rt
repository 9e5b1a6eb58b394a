//! What is written over the calls of the book alone, to show that they suffice.

pub mod three_threads;
