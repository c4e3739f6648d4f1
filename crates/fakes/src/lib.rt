//! Readers and writers for tests: they move few bytes per call, are full, fail once, count their calls, or have unknown
//! input.
#![tactic(auto)]

ghost use Rattle.std.specs.Prelude.{◌<◌, Some, None, if◌then◌else◌, ◌≡◌, ◌≤◌, ◌+◌, true, false, vec_len, vec_capacity};
ghost use Rattle.multihash.specs.Fault.{IsOwnFault};
ghost use Rattle.multihash.specs.Lemmas.{AppendsAtEnd-none, AppendsAtEnd-concatenated};
ghost use Rattle.multihash.specs.Writing.{AppendsAtEnd};

use multihash::no_std_io::{Error, Read, Write};
use std::alloc::{AllocError, Global};

/// The text of an out-of-memory error. An error with any other text is of the kind `other`.
pub const OUT_OF_MEMORY: &str = "out of memory";

fn error_of(text: &'static str) -> Error
    ensures { IsOwnFault result }
{
    if text == OUT_OF_MEMORY {
        Error::out_of_memory()
    } else {
        Error::other(text)
    }
}

/// A reader of a slice, which returns at most `most` bytes per call. Its input is known.
#[derive(Drop)]
pub struct Cuts<'a> {
    pub left: &'a [u8],
    most: usize,
    ghost gives_some: { 0 < most },
}

impl<'a> Cuts<'a> {
    pub fn new(left: &'a [u8], most: usize) -> Self
        requires { 0 < most }
    {
        Cuts { left, most }
    }
}

impl Read for Cuts<'_> {
    ghost rest = { λ r. Some r.left.now };

    ghost failures = { λ _. 0 };

    fn read(&mut self, buf: &mut [u8]) -> Result<usize, Error> {
        let n = self.left.len().min(buf.len()).min(self.most);
        let (front, left) = self.left.split_at(n);
        buf[..n].copy_from_slice(front);
        self.left = left;
        Ok(n)
    }
}

/// As [`Cuts`], but the call after the first `successes` calls fails, and no other, with an error of this text.
#[derive(Drop)]
pub struct FailAt<'a> {
    pub inner: Cuts<'a>,
    /// The number of calls.
    pub calls: usize,
    successes: usize,
    text: &'static str,
    failed: bool,
}

impl<'a> FailAt<'a> {
    pub fn new(inner: Cuts<'a>, successes: usize, text: &'static str) -> Self {
        FailAt {
            inner,
            calls: 0,
            successes,
            text,
            failed: false,
        }
    }
}

impl Read for FailAt<'_> {
    ghost rest = { λ r. Some r.inner.left.now };

    ghost failures = { λ r. (if r.failed then 1 else 0) };

    fn read(&mut self, buf: &mut [u8]) -> Result<usize, Error> {
        let fails = self.calls == self.successes && !self.failed;
        self.calls = self.calls.saturating_add(1);
        if fails {
            self.failed = true;
            return Err(error_of(self.text));
        }
        self.inner.read(buf)
    }
}

/// A reader of a slice, whose input is not known.
#[derive(Drop)]
pub struct Silent<'a>(pub &'a [u8]);

impl Read for Silent<'_> {
    ghost rest = { λ _. None };

    ghost failures = { λ _. 0 };

    fn read(&mut self, buf: &mut [u8]) -> Result<usize, Error> {
        self.0.read(buf)
    }
}

/// A reader of a slice, which counts its calls. Its input is known.
#[derive(Drop)]
pub struct CountingReader<'a> {
    pub left: &'a [u8],
    /// The calls of `read` for one byte, those for more or none, and those of `read_exact`.
    pub calls: (usize, usize, usize),
}

impl<'a> CountingReader<'a> {
    pub fn new(left: &'a [u8]) -> Self {
        CountingReader {
            left,
            calls: (0, 0, 0),
        }
    }
}

impl Read for CountingReader<'_> {
    ghost rest = { λ r. Some r.left.now };

    ghost failures = { λ _. 0 };

    fn read(&mut self, buf: &mut [u8]) -> Result<usize, Error> {
        if buf.len() == 1 {
            self.calls.0 = self.calls.0.saturating_add(1);
        } else {
            self.calls.1 = self.calls.1.saturating_add(1);
        }
        self.left.read(buf)
    }

    fn read_exact(&mut self, buf: &mut [u8]) -> Result<(), Error> {
        self.calls.2 = self.calls.2.saturating_add(1);
        self.left.read_exact(buf)
    }
}

/// A writer that accepts at most `most` bytes per call, and is full after `capacity` bytes, which it has allocated.
#[derive(Drop)]
pub struct Drip {
    pub written: Vec<u8>,
    capacity: usize,
    most: usize,
    ghost reserved: { vec_len written + capacity ≤ vec_capacity written },
    ghost takes_some: { 0 < most },
}

impl Drip {
    pub fn new(alloc: Global, capacity: usize, most: usize) -> Result<Self, AllocError>
        requires { 0 < most }
    {
        Ok(Drip {
            written: Vec::with_capacity(alloc, capacity)?,
            capacity,
            most,
        })
    }
}

impl Write for Drip {
    const ALLOCATES: bool = false;

    ghost allocates = { false };

    ghost appended = { λ old bytes new. AppendsAtEnd old.written.items bytes new.written.items };

    ghost full = { λ w. w.capacity ≡ 0 };

    ghost failures = { λ _. 0 };

    ghost appends_nothing = { λ w. AppendsAtEnd-none w.written.items };

    ghost appends_concatenated = { λ a b c x y first second.
        AppendsAtEnd-concatenated a.written.items b.written.items c.written.items x y first second };

    fn write(&mut self, buf: &[u8]) -> Result<usize, Error> {
        let n = buf.len().min(self.most).min(self.capacity);
        self.written.extend_from_slice(&buf[..n]).unwrap();
        self.capacity -= n;
        Ok(n)
    }
}

/// As [`Drip`], but the call after the first `successes` calls fails, and no other, with an error of this text.
#[derive(Drop)]
pub struct FailWrite {
    pub inner: Drip,
    /// The number of calls.
    pub calls: usize,
    successes: usize,
    text: &'static str,
    failed: bool,
}

impl FailWrite {
    pub fn new(inner: Drip, successes: usize, text: &'static str) -> Self {
        FailWrite {
            inner,
            calls: 0,
            successes,
            text,
            failed: false,
        }
    }
}

impl Write for FailWrite {
    const ALLOCATES: bool = false;

    ghost allocates = { false };

    ghost appended = { λ old bytes new.
        AppendsAtEnd old.inner.written.items bytes new.inner.written.items };

    ghost full = { λ w. w.inner.capacity ≡ 0 };

    ghost failures = { λ w. (if w.failed then 1 else 0) };

    ghost appends_nothing = { λ w. AppendsAtEnd-none w.inner.written.items };

    ghost appends_concatenated = { λ a b c x y first second. AppendsAtEnd-concatenated
        a.inner.written.items b.inner.written.items c.inner.written.items x y first second };

    fn write(&mut self, buf: &[u8]) -> Result<usize, Error> {
        let fails = self.calls == self.successes && !self.failed;
        self.calls = self.calls.saturating_add(1);
        if fails {
            self.failed = true;
            return Err(error_of(self.text));
        }
        self.inner.write(buf)
    }
}

/// A vector as a writer that counts its calls.
#[derive(Drop)]
pub struct CountingWriter {
    pub written: Vec<u8>,
    /// The calls of `write`, and those of `write_all`.
    pub calls: (usize, usize),
}

impl CountingWriter {
    pub fn new(alloc: Global) -> Self {
        CountingWriter {
            written: Vec::new(alloc),
            calls: (0, 0),
        }
    }
}

impl Write for CountingWriter {
    const ALLOCATES: bool = true;

    ghost allocates = { true };

    ghost appended = { λ old bytes new. AppendsAtEnd old.written.items bytes new.written.items };

    ghost full = { λ _. ⊥ };

    ghost failures = { λ _. 0 };

    ghost appends_nothing = { λ w. AppendsAtEnd-none w.written.items };

    ghost appends_concatenated = { λ a b c x y first second.
        AppendsAtEnd-concatenated a.written.items b.written.items c.written.items x y first second };

    fn write(&mut self, buf: &[u8]) -> Result<usize, Error> {
        self.calls.0 = self.calls.0.saturating_add(1);
        self.written.write(buf)
    }

    fn write_all(&mut self, buf: &[u8]) -> Result<(), Error> {
        self.calls.1 = self.calls.1.saturating_add(1);
        self.written.write_all(buf)
    }
}
