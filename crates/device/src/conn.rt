//! The traits of the devices from which bytes come and to which they go.
ghost use Rattle.std.specs.Prelude.{
  ◌≡◌,
  ◌<◌,
  ℕ,
  Bool,
  true,
  List,
  Option,
  length,
  IfOk,
  OnOk,
  OnErr,
};
ghost use Rattle.std.specs.Io.{ReadsAtMost, WritesAtMost};
ghost use Rattle.std.specs.Io.KnownBytes.{ReadConsumes, WriteAppends};

/// A read or a write failed.
#[derive(Clone, Copy, PartialEq, Eq, Debug)]
pub struct DeviceFault;

/// Bytes that come in.
pub trait ConnRead {
    /// The bytes that reads will give from here on, where they are known.
    ghost remaining: { Self → Option (List ℕ) };

    /// The mark of failure: some read failed.
    ghost failed: { Self → Bool };

    /// Reads some bytes into the front of `buf`, and answers how many. None is the end of the
    /// input, unless `buf` is empty. A fault takes nothing.
    fn read(&mut self, buf: &mut [u8]) -> Result<usize, DeviceFault>
        ensures fits { ReadsAtMost result buf.new }
        ensures bytes { ReadConsumes (remaining self.old) (remaining self.new) result buf.new }
        ensures unmarked { OnOk result (failed self.new ≡ failed self.old) }
        ensures marked { OnErr result (failed self.new ≡ true) };
}

/// Bytes that go out.
pub trait ConnWrite {
    /// The bytes that were written, where they are known.
    ghost contents: { Self → Option (List ℕ) };

    /// The mark of failure: some write failed.
    ghost failed: { Self → Bool };

    /// Writes some bytes from the front of `buf`, and answers how many: at least one, unless `buf`
    /// is empty. A fault writes nothing.
    fn write(&mut self, buf: &[u8]) -> Result<usize, DeviceFault>
        ensures fits { WritesAtMost result buf.now }
        ensures some { IfOk result (λ n. 0 < length buf.now → 0 < n) }
        ensures bytes { WriteAppends (contents self.old) (contents self.new) result buf.now }
        ensures unmarked { OnOk result (failed self.new ≡ failed self.old) }
        ensures marked { OnErr result (failed self.new ≡ true) };
}
