//! The program over memory: a reader and a writer that count their calls, move few bytes per call, and then end or fail.
ghost use Rattle.std.specs.Prelude.{◌≡◌, IfOk};

use super::run;
use crate::show::{ShowError, show};
use std::alloc::Global;
use std::io::{self, ErrorKind, Read, Write};
use std::process::Abort;

const EXAMPLE: &[u8] = b"1603aabbcc";

const EXAMPLE_LINES: &[u8] = b"code 22\nsize 3\ndigest aabbcc\n";

const NOT_READ: &[u8] = b"mh_show: input not read\n";

const NOT_WRITTEN: &[u8] = b"mh_show: output not written\n";

// What a call returns that moves no byte.
fn end(error: Option<ErrorKind>) -> io::Result<usize>
    ensures { IfOk result (λ n. n ≡ 0) }
{
    match error {
        Some(kind) => Err(kind.into()),
        None => Ok(0),
    }
}

// Returns its bytes, at most that many per call, and then no byte or the error.
#[derive(Drop)]
struct SlowReader<'a> {
    left: &'a [u8],
    most: usize,
    error: Option<ErrorKind>,
    calls: usize,
}

impl Read for SlowReader<'_> {
    fn read(&mut self, buf: &mut [u8]) -> io::Result<usize> {
        self.calls = self.calls.saturating_add(1);
        let count = self.left.len().min(self.most).min(buf.len());
        if count == 0 {
            return end(self.error);
        }
        let (front, rest) = self.left.split_at(count);
        buf[..count].copy_from_slice(front);
        self.left = rest;
        Ok(count)
    }
}

// Keeps what is written, at most that many bytes per call. When it is full, it accepts no byte or returns the error.
#[derive(Drop)]
struct SlowWriter {
    written: Vec<u8>,
    capacity: usize,
    most: usize,
    error: Option<ErrorKind>,
    calls: usize,
}

impl SlowWriter {
    fn new(alloc: Global, capacity: usize, error: Option<ErrorKind>) -> Self {
        SlowWriter {
            written: Vec::new(alloc),
            capacity,
            most: 256,
            error,
            calls: 0,
        }
    }
}

impl Write for SlowWriter {
    fn write(&mut self, buf: &[u8]) -> io::Result<usize> {
        self.calls = self.calls.saturating_add(1);
        let count = buf.len().min(self.most).min(self.capacity);
        if count == 0 {
            return end(self.error);
        }
        self.written.extend_from_slice(&buf[..count])?;
        self.capacity -= count;
        Ok(count)
    }

    fn flush(&mut self) -> io::Result<()> {
        Ok(())
    }
}

#[derive(Drop)]
struct Streams<'a> {
    input: SlowReader<'a>,
    out: SlowWriter,
    err: SlowWriter,
}

impl<'a> Streams<'a> {
    // The outputs accept all bytes.
    fn new(alloc: Global, left: &'a [u8], most: usize, error: Option<ErrorKind>) -> Self {
        let input = SlowReader {
            left,
            most,
            error,
            calls: 0,
        };
        Streams {
            input,
            out: SlowWriter::new(alloc, 256, None),
            err: SlowWriter::new(alloc, 256, None),
        }
    }

    // A run ends with this status and these outputs, after that many calls of each stream.
    fn expect(
        self,
        rt: &(impl Abort + AllocGlobal),
        wanted: (u8, &[u8], &[u8]),
        calls: (usize, usize, usize),
    ) {
        let Streams {
            mut input,
            mut out,
            mut err,
        } = self;
        let status = run(rt.alloc(), &mut input, &mut out, &mut err);
        assert_eq!(rt; out.written.as_slice(), wanted.1);
        assert_eq!(rt; err.written.as_slice(), wanted.2);
        assert_eq!(rt; status, wanted.0);
        assert_eq!(rt; (input.calls, out.calls, err.calls), calls);
    }
}

const INTERRUPTED: Option<ErrorKind> = Some(ErrorKind::Interrupted);

const NOT_CONNECTED: Option<ErrorKind> = Some(ErrorKind::NotConnected);

// What was read before is not shown.
#[test]
fn a_read_that_fails_is_the_last(rt: HostRuntime) {
    for error in [INTERRUPTED, NOT_CONNECTED] {
        for (text, calls) in [(b"".as_slice(), 1), (b"1603", 2), (EXAMPLE, 3)] {
            let streams = Streams::new(rt.alloc(), text, 5, error);
            streams.expect(&rt, (1, b"", NOT_READ), (calls, 0, 1));
        }
    }
}

// More bytes than an input may have: the reader is never asked for all of them.
#[test]
fn a_reader_that_never_ends(rt: HostRuntime) {
    let streams = Streams::new(rt.alloc(), &[b'0'; 70000], 1, None);
    streams.expect(&rt, (1, b"", NOT_READ), (65537, 0, 1));
}

#[test]
fn one_byte_a_call_is_the_same(rt: HostRuntime) {
    let mut streams = Streams::new(rt.alloc(), EXAMPLE, 1, None);
    streams.out.most = 1;
    streams.expect(&rt, (0, EXAMPLE_LINES, b""), (11, 29, 0));
    let mut streams = Streams::new(rt.alloc(), b"zz", 1, None);
    streams.err.most = 1;
    streams.expect(&rt, (1, b"", b"mh_show: not hexadecimal\n"), (3, 0, 25));
}

#[test]
fn the_lines_of_a_long_digest_are_one_write(rt: HostRuntime) {
    let mut digits = [b'0'; 132];
    digits[2] = b'4';
    let mut lines = [b'0'; 151];
    lines[..22].copy_from_slice(b"code 0\nsize 64\ndigest ");
    lines[150] = b'\n';
    let streams = Streams::new(rt.alloc(), &digits, 200, None);
    streams.expect(&rt, (0, &lines, b""), (2, 1, 0));
}

// A line for each reason to reject an input.
#[test]
fn a_rejected_input_has_status_1(rt: HostRuntime) {
    let rows = [
        ("0", "mh_show: not hexadecimal\n"),
        ("00", "mh_show: not enough input bytes\n"),
        (
            "ffffffffffffffffff01",
            "mh_show: input bytes exceed maximum\n",
        ),
        ("8000", "mh_show: encoding is not minimal\n"),
        ("0041", "mh_show: Invalid multihash size 65.\n"),
        ("0001", "mh_show: failed to fill whole buffer\n"),
    ];
    for (text, reason) in rows {
        let streams = Streams::new(rt.alloc(), text.as_bytes(), 256, None);
        streams.expect(&rt, (1, b"", reason.as_bytes()), (2, 0, 1));
    }
}

// Nor is the line with the reason written again. A write of zero bytes is a failure.
#[test]
fn a_write_that_fails_is_the_last(rt: HostRuntime) {
    for error in [None, INTERRUPTED, NOT_CONNECTED] {
        for (shown, calls) in [(b"".as_slice(), 1), (b"code 22\nsi", 2)] {
            let mut streams = Streams::new(rt.alloc(), EXAMPLE, 9, None);
            streams.out = SlowWriter::new(rt.alloc(), shown.len(), error);
            streams.expect(&rt, (1, shown, NOT_WRITTEN), (3, calls, 1));
        }
        let mut streams = Streams::new(rt.alloc(), b"zz", 9, None);
        streams.err = SlowWriter::new(rt.alloc(), 4, error);
        streams.expect(&rt, (1, b"", b"mh_s"), (2, 0, 2));
    }
}

// `checks/rt.t` makes each allocation of this test fail: there is none.
#[test]
fn an_odd_line_needs_no_memory(rt: HostRuntime) {
    for text in [b"0".as_slice(), b"0\n", b"016"] {
        assert!(&rt; matches!(show(rt.alloc(), text), Err(ShowError::NotHex)));
    }
}
