//! A file, a pipe or a socket as a reader.
ghost use Rattle.std.specs.Prelude.{None};

use multihash::no_std_io::{Error, Read};

// The most bytes requested in one call.
const CHUNK: usize = 64;

/// A reader over one of `std::io`, whose input is not known. Each of its failing calls is one failure, and
/// nothing is said of the bytes after those read, so the inner reader gets a buffer of its own.
#[derive(Drop)]
pub struct StdReader<I> {
    inner: I,
    failed: u64,
}

impl<I: std::io::Read> StdReader<I> {
    /// Returns a reader of the same input.
    pub fn new(inner: I) -> Self {
        StdReader { inner, failed: 0 }
    }
}

impl<I: std::io::Read> Read for StdReader<I> {
    ghost rest = { λ _. None };

    ghost failures = { λ r. r.failed };

    fn read(&mut self, buf: &mut [u8]) -> Result<usize, Error> {
        let mut chunk = [0; CHUNK];
        let len = buf.len().min(CHUNK);
        match std::io::Read::read(&mut self.inner, &mut chunk[..len]) {
            Ok(n) => {
                buf[..n].copy_from_slice(&chunk[..n]);
                Ok(n)
            }
            // The law asks for a count that rises at each failure: after 2^64 - 1 of them the input ends.
            Err(_) => match self.failed.checked_add(1) {
                Some(failed) => {
                    self.failed = failed;
                    Err(Error::other("not read"))
                }
                None => Ok(0),
            },
        }
    }
}
