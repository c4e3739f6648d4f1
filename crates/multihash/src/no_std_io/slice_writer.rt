//! A writer that keeps the slice that it fills.
ghost use Rattle.std.specs.Prelude.{◌≡◌, ◌+◌, ◌-◌, ◌≤◌, ◌↔◌, Ok, min, length, false, IsOk, OnErr};

use super::impls::copy_front;
use super::{Error, Write};

/// A writer that fills a slice from the front and keeps it, so that contracts state which bytes it
/// holds. A plain `&mut [u8]` as a writer advances past the bytes that it has filled, and no contract
/// can speak of those.
#[derive(Drop)]
pub struct SliceWriter<'a> {
    /// The slice: the bytes written so far, then its unchanged remainder.
    pub buffer: &'a mut [u8],
    /// The number of bytes written.
    pub filled: usize,
    pub ghost inside: { filled ≤ length buffer.now },
}

impl<'a> SliceWriter<'a> {
    /// Returns a writer that has written nothing, with the slice's length as its capacity.
    pub fn new(buffer: &'a mut [u8]) -> Self
        ensures same_reference { result.buffer.ghost_name ≡ buffer.entry.ghost_name }
        ensures kept { result.buffer.now ≡ buffer.old }
        ensures empty { result.filled ≡ 0 }
    {
        SliceWriter { buffer, filled: 0 }
    }
}

/// Writes after the bytes written so far. If not all bytes fit, `write_all` fills the slice and returns
/// an error, [`Error::is_write_zero`].
impl Write for SliceWriter<'_> {
    ghost use Rattle.multihash.specs.Writing.{WriteLaws, WriteAllLaws};
    ghost use Rattle.multihash.specs.Filling.{Fills, IsFilled};
    ghost use Rattle.multihash.specs.Lemmas.{Fills-none, Fills-concatenated};

    const ALLOCATES: bool = false;

    ghost allocates = { false };

    ghost appended = { Fills };

    ghost full = { IsFilled };

    ghost failures = { λ _. 0 };

    ghost appends_nothing = { Fills-none };

    ghost appends_concatenated = { Fills-concatenated };

    fn write(&mut self, buf: &[u8]) -> Result<usize, Error>
        ensures laws { WriteLaws Fills IsFilled (λ _. 0) false self.old buf.now self.new result }

        ensures smaller { result ≡ Ok (min (length buf.now)
            (length self.old.buffer.now - self.old.filled)) }
    {
        let n = copy_front(buf, &mut self.buffer[self.filled..]);
        self.filled += n;
        Ok(n)
    }

    fn write_all(&mut self, buf: &[u8]) -> Result<(), Error>
        ensures laws { WriteAllLaws Fills IsFilled (λ _. 0) false self.old buf.now self.new result }

        ensures fits { IsOk result ↔
            (self.old.filled + length buf.now ≤ length self.old.buffer.now) }
        ensures filled { OnErr result (IsFilled self.new) }
    {
        if self.write(buf)? == buf.len() {
            Ok(())
        } else {
            Err(Error::write_zero())
        }
    }
}
