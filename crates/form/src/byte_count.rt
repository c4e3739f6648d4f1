//! A writer that counts bytes and keeps none.
use multihash::no_std_io::{Error, Write};

/// A writer that counts the bytes, up to `u64::MAX`.
#[derive(Clone, Copy, Debug)]
pub struct ByteCount {
    /// The number of bytes.
    pub count: u64,
}

impl Write for ByteCount {
    ghost use Rattle.std.specs.Prelude.{false};
    ghost use Rattle.form.specs.ByteCount.{AddsCount, AddsCount-none, AddsCount-concatenated};

    const ALLOCATES: bool = false;

    ghost allocates = { false };

    ghost appended = { AddsCount };

    ghost full = { λ _. ⊥ };

    ghost failures = { λ _. 0 };

    ghost appends_nothing = { AddsCount-none };

    ghost appends_concatenated = { AddsCount-concatenated };

    fn write(&mut self, buf: &[u8]) -> Result<usize, Error> {
        self.count = self.count.saturating_add(buf.len() as u64);
        Ok(buf.len())
    }
}
