//! Marks of where bytes of a buffer were written.

ghost use Rattle.std.specs.Prelude.{◌≡◌, ◌≤◌, ◌∷◌, List, [], ℕ, length, replicate};
ghost use Rattle.std.specs.List.{All};
ghost use Rattle.zeros.specs.Marks.{spans, IsOutside, EndsBy, AreZerosOutside};

use std::alloc::{AllocError, Global};

/// How many spans are kept apart from the last one.
const SPANS: usize = 16;

/// The places from `from` on that are before `to`.
#[derive(Clone, Copy, Debug)]
struct Span {
    from: usize,
    to: usize,
}

/// The places that are marked.
#[derive(Drop)]
pub(crate) struct Marks {
    /// The spans before the last one.
    earlier: Vec<Span>,
    /// The span that was marked last.
    last: Span,
}

impl Marks {
    /// No place is marked. It takes no memory.
    pub(crate) fn new(alloc: Global) -> Marks
        ensures { (end : ℕ) → All (EndsBy end) (spans result) }
    {
        Marks {
            earlier: Vec::new(alloc),
            last: Span { from: 0, to: 0 },
        }
    }

    /// Room for spans apart from the last one.
    pub(crate) fn reserve(&mut self) -> Result<(), AllocError>
        ensures { spans self.new ≡ spans self.old }
    {
        if self.earlier.capacity() == 0 {
            self.earlier.reserve(SPANS)?;
        }
        Ok(())
    }

    /// Marks the places `from..to`, which follow all that are marked. It takes no memory: without
    /// room for one more span it makes the last one longer, with the places between.
    pub(crate) fn mark(&mut self, from: usize, to: usize)
        requires order { from ≤ to }
        requires before { All (EndsBy from) (spans self.old) }
        ensures ends { All (EndsBy to) (spans self.new) }
        ensures marked { (i : ℕ) → All (IsOutside i) (spans self.new) → from ≤ i → to ≤ i }
        ensures kept { (i : ℕ) → All (IsOutside i) (spans self.new)
            → All (IsOutside i) (spans self.old) }
    {
        if from == self.last.to || self.earlier.len() == self.earlier.capacity() {
            self.last.to = to;
            return;
        }
        self.earlier.push_reserved(self.last);
        self.last = Span { from, to };
    }

    /// Fills the marked places with zeros, and then marks none.
    pub(crate) fn wipe(&mut self, bytes: &mut [u8])
        requires ends { All (EndsBy (length bytes.old)) (spans self.old) }
        requires zeros { AreZerosOutside (spans self.old) bytes.old }
        ensures none { (end : ℕ) → All (EndsBy end) (spans self.new) }
        ensures wiped { bytes.new ≡ replicate (length bytes.old) 0 }
    {
        wipe_span(self.last, bytes);
        wipe_spans(self.earlier.as_slice(), bytes);
        self.earlier.clear();
        self.last = Span { from: 0, to: 0 };
    }
}

/// Fills the places of a span with zeros.
fn wipe_span(span: Span, bytes: &mut [u8])
    requires { EndsBy (length bytes.old) span }
    ensures len { length bytes.new ≡ length bytes.old }
    ensures wiped { (spans : List Span) → AreZerosOutside (span ∷ spans) bytes.old
        → AreZerosOutside spans bytes.new }
{
    bytes[span.from..span.to].fill(0);
}

/// Fills the places of spans with zeros.
fn wipe_spans(spans: &[Span], bytes: &mut [u8])
    requires ends { All (EndsBy (length bytes.old)) spans.now }
    requires zeros { AreZerosOutside spans.now bytes.old }
    ensures { bytes.new ≡ replicate (length bytes.old) 0 }
{
    for place in 0..spans.len() {
        wipe_span(spans[place], bytes);
    }
}
