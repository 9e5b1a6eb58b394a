//! Which function answers the rows of a file, and what it is given beside the row.

use crate::{answers, blocks, credit, frames, heads, kinds, names, values, verdicts};
use anyhow::{Result, bail};
use creditbook::Book;
use sendwindows::SendWindows;
use streamstates::Halves;
use hpack_codec::{Decoder, Encoder};
use lists::Field;
use rows::{GivenRow, Subject};
use std::alloc::Global;

/// The rows of a file about frames, each of which stands alone.
#[derive(Drop)]
pub struct OfFrames {
    pub file: &'static str,
}

impl Subject for OfFrames {
    fn restart(&mut self, _alloc: Global) {}

    fn answer(&mut self, alloc: Global, given: GivenRow<'_>, answer: &mut String) -> Result<()> {
        match self.file {
            "frames.rows" => frames::whole(alloc, given.text, answer),
            "faults.rows" => frames::first_bytes(alloc, given.text, answer),
            "kinds.rows" => kinds::kinds(alloc, given.words, answer),
            "lengths.rows" => kinds::lengths(alloc, given.words, answer),
            "refused.rows" => kinds::refused(alloc, given.words, answer),
            "names.rows" => names::answer(alloc, given.words, answer),
            file => bail!("{file} has no subject"),
        }
    }
}

/// The rows of a file about what stands above frames. A heading begins a connection.
#[derive(Drop)]
pub struct OfFlow {
    file: &'static str,
    halves: Halves,
    windows: SendWindows,
    book: Book,
}

impl OfFlow {
    pub fn new(alloc: Global, file: &'static str) -> OfFlow {
        OfFlow {
            file,
            halves: Halves::new(alloc),
            windows: SendWindows::new(alloc),
            book: Book::new(alloc),
        }
    }
}

impl Subject for OfFlow {
    fn restart(&mut self, alloc: Global) {
        *self = OfFlow::new(alloc, self.file);
    }

    fn answer(&mut self, alloc: Global, given: GivenRow<'_>, answer: &mut String) -> Result<()> {
        match self.file {
            "verdicts.rows" => verdicts::table(alloc, given.text, answer),
            "streams.rows" => verdicts::streams(&mut self.halves, given.words, answer),
            "windows.rows" => credit::windows(&mut self.windows, given.words, answer),
            "books.rows" => credit::books(&mut self.book, given.words, answer),
            file => bail!("{file} has no subject"),
        }
    }
}

/// The rows of a file about header blocks and heads of calls. A heading begins a connection.
#[derive(Drop)]
pub struct OfHeaders {
    file: &'static str,
    decoder: Decoder,
    /// The blocks that the decoder was given.
    blocks: Vec<Vec<u8>>,
    encoder: Encoder,
    /// What a part `plain` stands for.
    plain: Vec<Field>,
}

impl OfHeaders {
    pub fn new(alloc: Global, file: &'static str) -> OfHeaders {
        OfHeaders {
            file,
            decoder: Decoder::new(alloc),
            blocks: Vec::new(alloc),
            encoder: Encoder::new(alloc),
            plain: Vec::new(alloc),
        }
    }
}

impl Subject for OfHeaders {
    fn restart(&mut self, alloc: Global) {
        *self = OfHeaders::new(alloc, self.file);
    }

    fn answer(&mut self, alloc: Global, given: GivenRow<'_>, answer: &mut String) -> Result<()> {
        match self.file {
            "blocks-standard.rows" | "blocks-clients.rows" | "blocks-limits.rows" => {
                blocks::read(alloc, &mut self.decoder, &mut self.blocks, given, answer)
            }
            "blocks-refused.rows" => blocks::refused(alloc, given, answer),
            "blocks-written.rows" => {
                blocks::written(alloc, &mut self.encoder, &mut self.decoder, given, answer)
            }
            "heads-clients.rows" | "heads-malformed.rows" | "heads-read.rows" => {
                heads::read(alloc, &mut self.plain, given, answer)
            }
            "timeouts.rows" => values::timeout(alloc, given.text, answer),
            "status-texts.rows" => values::status_text(alloc, given, answer),
            "binary-values.rows" => values::binary(alloc, given, answer),
            "answers.rows" => answers::answer(alloc, given, answer),
            "fault-texts.rows" => names::faults(alloc, given.words, answer),
            file => bail!("{file} has no subject"),
        }
    }
}
