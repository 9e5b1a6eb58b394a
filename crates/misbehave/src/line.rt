//! What a server sees of the outside: connections, and time.

ghost use Rattle.std.specs.Prelude.{◌≡◌, ◌≤◌, length, IfOk, IfSome};

/// A connection was ended, or a read or a write of it failed.
#[derive(Clone, Copy)]
pub struct LineEnded;

/// A connection's bytes.
pub trait Line: Drop {
    /// Reads some bytes into the front of `buf`, and answers how many, or nothing where none came
    /// within a tick.
    fn read(&mut self, buf: &mut [u8]) -> Result<Option<usize>, LineEnded>
        ensures { IfOk result (λ came. IfSome came (λ count. count ≤ length buf.new)) };

    /// Writes some of the bytes from the front, and answers how many: none where the client took
    /// none within a tick.
    fn write(&mut self, bytes: &[u8]) -> Result<usize, LineEnded>
        ensures { IfOk result (λ count. count ≤ length bytes.now) };

    /// Ends this side of the connection: nothing more is written.
    fn shut(&mut self);
}

/// Where connections come from, and time.
pub trait World {
    type Line: Line;

    /// The next connection, if one was made.
    fn accept(&mut self) -> Option<Self::Line>;

    /// How many milliseconds have passed since the case began.
    fn milliseconds(&self) -> u64;

    /// Whether time is over.
    fn is_over(&self) -> bool;

    /// Waits for a tick.
    fn rest(&self);
}
