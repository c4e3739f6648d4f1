//! Readers and writers: how often each is called, borrowed or not; that an error is passed on unchanged, with no call
//! after it; and the bytes in a slice, of which no contract states more than their number.
use crate::expect::{FULL, check, check_eq, expect_ok, has_text, is_passed_on};
use fakes::{CountingReader, CountingWriter, Cuts, Drip, FailAt, FailWrite, OUT_OF_MEMORY, Silent};
use form::{Block, Form, FormError, Stream};
use multihash::list::{read_list, write_list};
use multihash::no_std_io::{self, Read, Write};
use multihash::{Error, Multihash};
use std::alloc::Global;
use std::process::Abort;

const LINK_DOWN: &str = "link down";

const DISK_GONE: &str = "disk gone";

use self::Encoding::{Binary, List, Scale};

/// An encoding, which one call reads and another writes.
#[derive(Clone, Copy, Debug)]
enum Encoding {
    Binary,
    Scale,
    List,
}

const ALL: [Encoding; 3] = [Binary, Scale, List];

impl Encoding {
    // The code 300 and the digest `AB`; in the list 0 and `A`, and 18 and `B`. They were encoded by hand, and a byte
    // follows.
    fn input(self) -> &'static [u8] {
        match self {
            Binary => &[172, 2, 2, 65, 66, 9],
            Scale => &[44, 1, 0, 0, 0, 0, 0, 0, 2, 65, 66, 9],
            List => &[0, 1, 65, 18, 1, 66, 9],
        }
    }

    fn bytes(self) -> &'static [u8] {
        self.input().split_last().map_or(&[], |(_, bytes)| bytes)
    }

    fn is_read<R: Read>(self, alloc: Global, r: &mut R) -> Result<bool, Error> {
        let wanted = Multihash::<4>::wrap(300, b"AB")?;
        match self {
            Binary => Ok(Multihash::read(r)? == wanted),
            Scale => Ok(Multihash::scale_decode(r)? == wanted),
            List => Ok(read_list(alloc, r, 2)?.as_slice() == items()?.as_slice()),
        }
    }

    fn is_read_borrowed<R: Read>(self, alloc: Global, r: &mut R) -> Result<bool, Error> {
        let mut reference = r;
        self.is_read(alloc, &mut reference)
    }

    fn write<W: Write>(self, w: &mut W) -> Result<usize, Error> {
        let m = Multihash::<4>::wrap(300, b"AB")?;
        match self {
            Binary => m.write(w),
            Scale => m.scale_encode(w),
            List => {
                write_list(&items()?, w)?;
                Ok(6)
            }
        }
    }

    fn write_borrowed<W: Write>(self, w: &mut W) -> Result<usize, Error> {
        let mut reference = w;
        self.write(&mut reference)
    }
}

fn items() -> Result<[Multihash<4>; 2], Error> {
    Ok([Multihash::wrap(0, b"A")?, Multihash::wrap(18, b"B")?])
}

// Inputs, some truncated or rejected, and the calls that read them: those of `read` for one byte, which a varint needs
// for each byte, those of `read` for others, and those of `read_exact`.
const READS: [(Encoding, &[u8], (usize, usize, usize)); 17] = [
    (Binary, &[], (1, 0, 0)),
    (Binary, &[172], (2, 0, 0)),
    (Binary, &[172, 2], (3, 0, 0)),
    (Binary, &[172, 2, 2], (3, 0, 1)),
    (Binary, &[172, 2, 2, 65], (3, 0, 1)),
    (Binary, &[172, 2, 2, 65, 66], (3, 0, 1)),
    (Binary, &[0, 0], (2, 0, 1)),
    (Binary, &[0, 5, 1, 2, 3], (2, 0, 0)),
    (Binary, &[0, 128, 0, 1], (3, 0, 0)),
    (Binary, &[255; 12], (9, 0, 0)),
    (Scale, &[44, 1, 0, 0, 0, 0, 0], (0, 0, 1)),
    (Scale, &[44, 1, 0, 0, 0, 0, 0, 0], (0, 0, 2)),
    (Scale, &[44, 1, 0, 0, 0, 0, 0, 0, 2, 65], (0, 0, 3)),
    (Scale, &[44, 1, 0, 0, 0, 0, 0, 0, 2, 65, 66], (0, 0, 3)),
    (Scale, &[44, 1, 0, 0, 0, 0, 0, 0, 5, 65], (0, 0, 2)),
    (Scale, &[255; 9], (0, 0, 1)),
    (List, &[0, 1, 65, 18, 1, 66], (4, 0, 2)),
];

#[test]
fn reading_makes_as_many_calls(rt: HostRuntime) {
    for (encoding, input, calls) in READS {
        let mut reader = CountingReader::new(input);
        let _outcome = encoding.is_read(rt.alloc(), &mut reader);
        check_eq!(&rt; reader.calls, calls, (encoding, input));
    }
    let mut reader = CountingReader::new(&[0, 0]);
    check!(&rt; expect_ok!(&rt; read_list::<4, _>(rt.alloc(), &mut reader, 0)).is_empty());
    check_eq!(&rt; reader.calls, (0, 0, 0));
}

// What follows is not read, nor is a call made that would fail, and each byte is written once.
#[test]
fn few_bytes_a_call_are_the_same(rt: HostRuntime) {
    for encoding in ALL {
        let wanted = encoding.bytes();
        let mut unknown = Silent(wanted);
        check!(&rt; expect_ok!(&rt; encoding.is_read(rt.alloc(), &mut unknown)), encoding);
        for most in [1, 2, 3, 7] {
            let slow = Cuts::new(encoding.input(), most);
            let mut reader = FailAt::new(slow, wanted.len(), LINK_DOWN);
            check!(&rt; expect_ok!(&rt; encoding.is_read(rt.alloc(), &mut reader)), encoding);
            check_eq!(&rt; reader.inner.left, &[9], encoding);
            let slow = expect_ok!(&rt; Drip::new(rt.alloc(), wanted.len(), most));
            let mut writer = FailWrite::new(slow, wanted.len(), DISK_GONE);
            check_eq!(&rt; encoding.write(&mut writer).ok(), Some(wanted.len()), encoding);
            check_eq!(&rt; writer.inner.written.as_slice(), wanted, encoding);
        }
    }
}

fn expect_failed_read(rt: &impl Abort, alloc: Global, encoding: Encoding, at: usize) {
    let input = encoding.input();
    for text in [LINK_DOWN, OUT_OF_MEMORY] {
        let mut reader = FailAt::new(Cuts::new(input, 1), at, text);
        check!(rt; is_passed_on(&encoding.is_read(alloc, &mut reader), text), encoding);
        check_eq!(rt; reader.calls, at.saturating_add(1), encoding);
        check_eq!(rt; reader.inner.left.len(), input.len().saturating_sub(at), encoding);
        // The first call consumed nothing, so all is read by another call.
        if at == 0 {
            check!(rt; expect_ok!(rt; encoding.is_read(alloc, &mut reader)), encoding);
            check_eq!(rt; reader.inner.left, &[9], encoding);
        }
    }
}

#[test]
fn nothing_is_read_after_an_error(rt: HostRuntime) {
    for encoding in ALL {
        for at in 0..encoding.bytes().len() {
            expect_failed_read(&rt, rt.alloc(), encoding, at);
        }
    }
}

fn is_failed<T>(outcome: &Result<T, FormError>, text: &str) -> bool {
    match outcome {
        Err(FormError::Failed(e)) => has_text(e, text),
        _ => false,
    }
}

// A stream reads one byte to see whether the input has ended.
#[test]
fn a_stream_passes_an_error_on(rt: HostRuntime) {
    for at in 0..4 {
        for text in [LINK_DOWN, OUT_OF_MEMORY] {
            let slow = Cuts::new(&[3, 7, 7, 7], 1);
            let mut stream = Stream::new(FailAt::new(slow, at, text));
            let outcome = stream.read_next::<Block<3>>(rt.alloc());
            check!(&rt; is_failed(&outcome, text), at);
        }
    }
}

// A value, and then the end, which one call finds. A block is read by one call.
#[test]
fn the_end_is_read_once(rt: HostRuntime) {
    let mut reader = CountingReader::new(&[0, 0]);
    let mut stream = Stream::new(CountingReader::new(&[3, 7, 7, 7]));
    for _ in 0..2 {
        let _m = expect_ok!(&rt; Multihash::<4>::read_next(&mut reader));
        let _value = expect_ok!(&rt; stream.read_next::<Block<3>>(rt.alloc()));
    }
    check_eq!(&rt; reader.calls, (3, 0, 1));
    check_eq!(&rt; stream.inner.calls, (2, 1, 0));
    // The default `read_exact` ends with the call that meets the end.
    let mut reader = FailAt::new(Cuts::new(&[1, 2, 3], 2), 600, LINK_DOWN);
    check!(&rt; reader.read_exact(&mut [0; 4]).is_err());
    check_eq!(&rt; reader.calls, 3);
}

fn borrowed_read<R: Read>(r: &mut R, buf: &mut [u8]) -> Result<usize, no_std_io::Error> {
    let mut reference = r;
    Read::read(&mut reference, buf)
}

fn borrowed_read_exact<R: Read>(r: &mut R, buf: &mut [u8]) -> Result<(), no_std_io::Error> {
    let mut reference = r;
    Read::read_exact(&mut reference, buf)
}

// One call, for all of the bytes.
fn expect_one_call(rt: &impl Abort, buf: &mut [u8]) {
    let calls = if buf.len() == 1 { (1, 0) } else { (0, 1) };
    let mut reader = CountingReader::new(&[7; 300]);
    check_eq!(rt; borrowed_read(&mut reader, buf).ok(), Some(buf.len()));
    check!(rt; borrowed_read_exact(&mut reader, buf).is_ok());
    check_eq!(rt; reader.calls, (calls.0, calls.1, 1));
}

#[test]
fn a_borrowed_reader_is_called_once(rt: HostRuntime) {
    expect_one_call(&rt, &mut []);
    expect_one_call(&rt, &mut [0]);
    expect_one_call(&rt, &mut [0; 150]);
    for text in [LINK_DOWN, OUT_OF_MEMORY] {
        let mut reader = FailAt::new(Cuts::new(&[7], 1), 0, text);
        check!(&rt; is_passed_on(&Binary.is_read_borrowed(rt.alloc(), &mut reader), text));
        check_eq!(&rt; reader.calls, 1);
    }
}

// The code, the size and the digest; the first two of SCALE are one. A borrowed writer has the trait's own `write_all`,
// which makes no call for no bytes.
const WRITES: [(Encoding, usize); 3] = [(Binary, 3), (Scale, 2), (List, 6)];

#[test]
fn writing_makes_as_many_calls(rt: HostRuntime) {
    for (encoding, calls) in WRITES {
        let mut writer = CountingWriter::new(rt.alloc());
        check!(&rt; encoding.write(&mut writer).is_ok(), encoding);
        check_eq!(&rt; writer.calls, (0, calls), encoding);
        let mut reference = &mut writer;
        check!(&rt; encoding.write(&mut reference).is_ok(), encoding);
        check_eq!(&rt; writer.calls, (calls, calls), encoding);
    }
    let mut writer = CountingWriter::new(rt.alloc());
    check!(&rt; write_list::<4, _>(&[], &mut writer).is_ok());
    check_eq!(&rt; writer.calls, (0, 0));
    let mut reference = &mut writer;
    check!(&rt; Multihash::<4>::default().write(&mut reference).is_ok());
    check_eq!(&rt; writer.calls, (2, 0));
    let block = expect_ok!(&rt; form::from_bytes::<Block<3>>(rt.alloc(), &[3, 7, 7, 7]));
    check!(&rt; block.write(&mut writer).is_ok());
    check_eq!(&rt; writer.calls, (2, 2));
}

fn borrowed_write<W: Write>(w: &mut W, buf: &[u8]) -> Result<usize, no_std_io::Error> {
    let mut reference = w;
    Write::write(&mut reference, buf)
}

#[test]
fn a_borrowed_writer_is_called_once(rt: HostRuntime) {
    for len in [0, 1, 300] {
        let mut writer = CountingWriter::new(rt.alloc());
        check_eq!(&rt; borrowed_write(&mut writer, &[7; 300][..len]).ok(), Some(len));
        check_eq!(&rt; writer.calls, (1, 0), len);
    }
    for text in [DISK_GONE, OUT_OF_MEMORY] {
        let slow = expect_ok!(&rt; Drip::new(rt.alloc(), 700, 1));
        let mut writer = FailWrite::new(slow, 0, text);
        check!(&rt; is_passed_on(&Binary.write_borrowed(&mut writer), text));
        check_eq!(&rt; writer.calls, 1);
    }
}

// A writer that is full, or fails, after that many bytes.
fn expect_failed_write(rt: &impl Abort, alloc: Global, encoding: Encoding, at: usize) {
    for text in [DISK_GONE, OUT_OF_MEMORY, FULL] {
        let (capacity, successes) = if text == FULL { (at, 700) } else { (700, at) };
        let slow = expect_ok!(rt; Drip::new(alloc, capacity, 1));
        let mut writer = FailWrite::new(slow, successes, text);
        check!(rt; is_passed_on(&encoding.write(&mut writer), text), (encoding, at));
        check_eq!(rt; writer.inner.written.as_slice(), encoding.bytes().get(..at).unwrap_or(&[]));
        check_eq!(rt; writer.calls, at.saturating_add(1), (encoding, at));
    }
}

#[test]
fn nothing_is_written_after_an_error(rt: HostRuntime) {
    for encoding in ALL {
        for at in 0..encoding.bytes().len() {
            expect_failed_write(&rt, rt.alloc(), encoding, at);
        }
    }
}

// As many bytes as fit; a byte after them is unchanged. The slice writes them by its `write_all`, or, if it is borrowed,
// by its `write`.
fn expect_in_slice(rt: &impl Abort, encoding: Encoding, room: usize, borrowed: bool) {
    let wanted = encoding.bytes();
    let mut buffer = [0u8; 13];
    let mut left = &mut buffer[..room.min(13)];
    let is_written = if borrowed {
        encoding.write_borrowed(&mut left).is_ok()
    } else {
        encoding.write(&mut left).is_ok()
    };
    let len = room.min(wanted.len()).min(13);
    check_eq!(rt; is_written, len == wanted.len(), encoding);
    check_eq!(rt; &buffer[..len], &wanted[..len], encoding);
    check!(rt; buffer[len..].iter().all(|byte| *byte == 0), encoding);
}

#[test]
fn a_slice_has_the_bytes(rt: HostRuntime) {
    for encoding in ALL {
        for room in 0..13 {
            expect_in_slice(&rt, encoding, room, false);
            expect_in_slice(&rt, encoding, room, true);
        }
    }
}
