//! Windows of flow control, as the frames of both sides say them (RFC 9113, section 6.9).

ghost use Rattle.std.specs.Prelude.{◌≡◌, ◌+ℤ◌, pos};
ghost use Rattle.std.specs.Int.{w64, saturate_signed};

use limits::INITIAL_WINDOW;

/// How a window changes by a frame. It may go below zero.
#[derive(Clone, Copy, Debug, PartialEq, Eq)]
pub struct Change {
    pub before: i64,
    pub after: i64,
}

/// What one side may send: on the connection, and initially on each stream.
#[derive(Clone, Copy, Debug, PartialEq, Eq)]
pub struct Windows {
    connection: i64,
    initial: i64,
}

/// What one side may send on a stream, beyond the initial size.
#[derive(Clone, Copy, Debug, PartialEq, Eq)]
pub struct WindowShift(i64);

impl Windows {
    /// Before any frame.
    pub const FIRST: Windows = Windows {
        connection: INITIAL_WINDOW as i64,
        initial: INITIAL_WINDOW as i64,
    };

    /// The connection's window changes by `bytes`.
    pub fn change(&mut self, bytes: i64) -> Change
        ensures before { result.before ≡ self.old.connection }
        ensures after { result.after ≡ saturate_signed w64 (self.old.connection +ℤ bytes) }
        ensures windows { self.new ≡ record self.old { connection = result.after } }
    {
        let before = self.connection;
        self.connection = before.saturating_add(bytes);
        Change {
            before,
            after: self.connection,
        }
    }

    /// The window of a stream changes by `bytes`.
    pub fn change_stream(&self, moved: &mut WindowShift, bytes: i64) -> Change
        ensures before { result.before ≡ saturate_signed w64 (self.now.initial +ℤ moved.old.0) }
        ensures moved { moved.new.0 ≡ saturate_signed w64 (moved.old.0 +ℤ bytes) }
        ensures after { result.after ≡ saturate_signed w64 (self.now.initial +ℤ moved.new.0) }
    {
        let before = self.initial.saturating_add(moved.0);
        moved.0 = moved.0.saturating_add(bytes);
        Change {
            before,
            after: self.initial.saturating_add(moved.0),
        }
    }

    /// The windows of streams get another initial size. Those of open streams move with it (section
    /// 6.9.2).
    pub fn resize(&mut self, size: u32) -> Change
        ensures before { result.before ≡ self.old.initial }
        ensures after { result.after ≡ pos size }
        ensures windows { self.new ≡ record self.old { initial = pos size } }
    {
        let before = self.initial;
        self.initial = i64::from(size);
        Change {
            before,
            after: self.initial,
        }
    }
}

impl WindowShift {
    /// Nothing was sent, and no credit came.
    pub const NONE: WindowShift = WindowShift(0);
}
