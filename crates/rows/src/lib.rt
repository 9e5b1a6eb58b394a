//! Files of worked rows, for the programs that try them.
//!
//! A line of a file is a row, `GIVEN -> WANTED`; a heading in brackets, which says what the rows
//! below it show; or a comment, after a `#` at the start of a line or between two blanks. What a
//! row gives and wants, its file says.
//!
//! A `Subject` is what the rows of a file are tried on: it writes its answer to what a row gives.
//! `try_file` tries each row, prints those whose answer isn't the wanted one, and counts them;
//! `digits` reads the bytes in a row.
#![tactic(auto)]

mod digits;
mod file;

pub use digits::{bytes_of, number};
pub use file::{GivenRow, Subject, try_file};
