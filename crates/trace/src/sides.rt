//! One thing of each side of a connection.

ghost use Rattle.std.specs.Prelude.{◌≡◌};
ghost use Rattle.trace.specs.Sides.{of_side, with_side};

use capture::Side;

/// What there is of the client, and of the server.
#[derive(Clone, Copy)]
pub struct Sides<T> {
    pub client: T,
    pub server: T,
}

impl<T: Copy> Sides<T> {
    /// What there is of a side.
    pub fn of(&self, side: Side) -> T
        ensures { result ≡ of_side self.now side }
    {
        match side {
            Side::Client => self.client,
            Side::Server => self.server,
        }
    }

    /// Replaces what there is of a side.
    pub fn set(&mut self, side: Side, value: T)
        ensures { self.new ≡ with_side self.old side value }
    {
        match side {
            Side::Client => self.client = value,
            Side::Server => self.server = value,
        }
    }
}
