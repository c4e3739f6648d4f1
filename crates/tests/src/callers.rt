//! Known values of `examples` and `form`, a reader over one of `std`, what `Debug` prints, and traits that callers need.
ghost use Rattle.std.specs.Prelude.{◌<◌};

use crate::expect::{check, check_eq, expect_ok};
use examples::content::{UnknownCode, is_damaged, verify};
use examples::std_reader::StdReader;
use examples::{loops, parts};
use fakes::{Cuts, FailAt};
use form::{
    Bytes, Case, FormError, Number, Stream, all_from_bytes, first_error, from_bytes, to_bytes,
    write_items,
};
use multihash::no_std_io::{self, Read};
use multihash::{Head, Multihash, MultihashGeneric};
use std::alloc::Global;
use std::error::Error;
use std::process::Abort;

// The identifier (CID) of `aaaa` as raw bytes, with its SHA-256 from another implementation.
const IDENTIFIER: [u8; 36] = [
    1, 0x55, 0x12, 32, 0x61, 0xbe, 0x55, 0xa8, 0xe2, 0xf6, 0xb4, 0xe1, 0x72, 0x33, 0x8b, 0xdd,
    0xf1, 0x84, 0xd6, 0xdb, 0xee, 0x29, 0xc9, 0x88, 0x53, 0xe0, 0xa0, 0x48, 0x5e, 0xce, 0xe7, 0xf2,
    0x7b, 0x9a, 0xf0, 0xb4,
];

// A reader of `std`, whose call is interrupted if that of the other one fails.
#[derive(Drop)]
struct InterruptedReader<'a>(FailAt<'a>);

impl std::io::Read for InterruptedReader<'_> {
    fn read(&mut self, buf: &mut [u8]) -> std::io::Result<usize> {
        match self.0.read(buf) {
            Ok(n) => Ok(n),
            Err(_) => Err(std::io::ErrorKind::Interrupted.into()),
        }
    }
}

// No contract states what is read. A call fails once, and nothing is lost.
fn expect_read(rt: &impl Abort, bytes: &[u8], most: usize, at: usize)
    requires { 0 < most }
{
    let inner = FailAt::new(Cuts::new(bytes, most), at, "");
    let mut reader = StdReader::new(InterruptedReader(inner));
    let mut buffer = [0u8; 200];
    let mut filled = 0usize;
    let mut failed = 0usize;
    // It asks for 64 bytes. One call fails, and one finds the end.
    for _ in 0..(bytes.len() / most.min(64)).saturating_add(3) {
        match reader.read(buffer.get_mut(filled..).unwrap_or(&mut [])) {
            Ok(0) => break,
            Ok(n) => filled = filled.saturating_add(n),
            Err(e) => {
                check_eq!(rt; e.text(), "not read");
                failed = failed.saturating_add(1);
            }
        }
    }
    check_eq!(rt; buffer.get(..filled).unwrap_or(&[]), bytes);
    check_eq!(rt; failed, 1, (most, at));
}

#[test]
fn a_reader_of_std_is_read(rt: HostRuntime) {
    for most in [1, 64, 200] {
        expect_read(&rt, &LOG, most, 0);
        expect_read(&rt, &LOG, most, 1);
    }
}

// A digest of 64 bytes, the most that it reads, and an empty one.
#[test]
fn codes_of_a_stream_are_read(rt: HostRuntime) {
    let mut stream = [0u8; 68];
    stream[..2].copy_from_slice(&[0x13, 64]);
    let codes = expect_ok!(&rt; loops::codes(rt.alloc(), &stream));
    check!(&rt; matches!(codes.as_slice(), [0x13, 0]));
    stream[1] = 65;
    let outcome = loops::codes(rt.alloc(), &stream);
    check!(&rt; outcome.is_err_and(|e| e.invalid_size() == Some(65)));
}

// The entries of `one` and of no bytes, with their SHA-256 from another implementation.
const LOG: [u8; 73] = [
    0x12, 0x20, 0x76, 0x92, 0xc3, 0xad, 0x35, 0x40, 0xbb, 0x80, 0x3c, 0x02, 0x0b, 0x3a, 0xee, 0x66,
    0xcd, 0x88, 0x87, 0x12, 0x32, 0x34, 0xea, 0x0c, 0x6e, 0x71, 0x43, 0xc0, 0xad, 0xd7, 0x3f, 0xf4,
    0x31, 0xed, 0x03, 0x6f, 0x6e, 0x65, 0x12, 0x20, 0xe3, 0xb0, 0xc4, 0x42, 0x98, 0xfc, 0x1c, 0x14,
    0x9a, 0xfb, 0xf4, 0xc8, 0x99, 0x6f, 0xb9, 0x24, 0x27, 0xae, 0x41, 0xe4, 0x64, 0x9b, 0x93, 0x4c,
    0xa4, 0x95, 0x99, 0x1b, 0x78, 0x52, 0xb8, 0x55, 0x00,
];

#[test]
fn a_known_content_is_verified(rt: HostRuntime) {
    let one = expect_ok!(&rt; Multihash::<64>::from_bytes(&LOG[..34]));
    check_eq!(&rt; verify(&one, b"one"), Ok(true));
    check_eq!(&rt; verify(&one, b"two"), Ok(false));
    let none = expect_ok!(&rt; Multihash::<32>::from_bytes(&LOG[38..72]));
    check_eq!(&rt; verify(&none, b""), Ok(true));
    let other = expect_ok!(&rt; Multihash::<64>::wrap(0x13, one.digest()));
    check_eq!(&rt; verify(&other, b"one"), Err(UnknownCode { code: 0x13 }));
    check!(&rt; is_damaged(&one, b"two") && !is_damaged(&one, b"one") && !is_damaged(&other, b"two"));
}

// Its digest comes after that many bytes.
fn expect_identifier(rt: &impl Abort, alloc: Global, bytes: &[u8], at: usize) {
    let id = expect_ok!(rt; parts::read_identifier(alloc, bytes));
    let digest = match &id.case {
        Case::This(tagged) => tagged.value.second.digest(),
        Case::Other(others) => others.case.value.second.bytes.as_slice(),
    };
    check_eq!(rt; digest, bytes.get(at..).unwrap_or(&[]));
    check_eq!(rt; expect_ok!(rt; to_bytes(alloc, &id)).as_slice(), bytes);
}

#[test]
fn known_identifiers_are_read(rt: HostRuntime) {
    expect_identifier(&rt, rt.alloc(), &IDENTIFIER, 4);
    expect_identifier(&rt, rt.alloc(), &LOG[..34], 2);
    let outcome = parts::read_identifier(rt.alloc(), &[2]);
    check!(&rt; matches!(outcome, Err(FormError::OtherTag(2))));
}

// The entries of the known log, with the numbers 300 and 6.
#[test]
fn numbers_of_entries_are_read(rt: HostRuntime) {
    let mut log = [6; 76];
    log[..2].copy_from_slice(&[0xac, 2]);
    log[2..40].copy_from_slice(&LOG[..38]);
    log[41..].copy_from_slice(&LOG[38..]);
    let numbers = expect_ok!(&rt; parts::entry_numbers(rt.alloc(), &log));
    check!(&rt; matches!(numbers.as_slice(), [300, 6]));
    let mut list = expect_ok!(&rt; all_from_bytes::<parts::LogEntry>(rt.alloc(), &log));
    let mut stream = Stream::new(log.as_slice());
    expect_ok!(&rt; parts::read_entries(rt.alloc(), &mut stream, usize::MAX, &mut list));
}

// /ip4/127.0.0.1/tcp/4001/dns4/a/udp/53/p2p/.. of an identity multihash.
const ADDRESS: [u8; 20] = [
    4, 127, 0, 0, 1, 6, 0x0f, 0xa1, 53, 1, 0x61, 0x91, 2, 0, 53, 0xa5, 3, 2, 0, 0,
];

#[test]
fn a_known_multiaddr_is_read(rt: HostRuntime) {
    let alloc = rt.alloc();
    let parts = expect_ok!(&rt; parts::read_address(alloc, &ADDRESS));
    check_eq!(&rt; parts.len(), 5);
    let mut bytes = Vec::new(alloc);
    expect_ok!(&rt; write_items(&parts, &mut bytes));
    check_eq!(&rt; bytes.as_slice(), ADDRESS.as_slice());
    check_eq!(&rt; expect_ok!(&rt; to_bytes(alloc, &parts::tcp(4001))).as_slice(), &ADDRESS[5..8]);
    let outcome = parts::read_address(alloc, &[5, 0]);
    check!(&rt; matches!(outcome, Err(FormError::OtherTag(5))));
}

// After a port of TCP: a tag of no part, a name of 254 bytes, and a name that is truncated.
#[test]
fn the_first_error_is_located(rt: HostRuntime) {
    let rows: [(&[u8], usize); 3] = [
        (&[6, 1, 2, 5, 7], 4),
        (&[6, 1, 2, 53, 0xfe, 1, 7, 7], 6),
        (&[6, 1, 2, 53, 2, 7], 6),
    ];
    for (bytes, offset) in rows {
        let found = first_error::<parts::AddressPart>(rt.alloc(), bytes);
        check!(&rt; found.is_some_and(|e| e.item == 1 && e.start == 3 && e.offset == offset), offset);
    }
    check!(&rt; first_error::<parts::AddressPart>(rt.alloc(), &ADDRESS).is_none());
}

// The data is at 0x33, and 0x0102 bytes; there is no index.
#[test]
fn a_known_car_header_is_read(rt: HostRuntime) {
    let alloc = rt.alloc();
    let mut bytes = [0u8; 40];
    (bytes[16], bytes[24], bytes[25]) = (0x33, 2, 1);
    let header = expect_ok!(&rt; from_bytes::<parts::CarHeader>(alloc, &bytes));
    let (at, rest) = (header.second.first.value, &header.second.second);
    check!(&rt; at == 0x33 && rest.first.value == 0x0102 && rest.second.value == 0);
    check_eq!(&rt; expect_ok!(&rt; to_bytes(alloc, &header)).as_slice(), bytes.as_slice());
}

// Fails to compile unless the types have these traits.
fn expect_traits<A: Error, B: Error, C: Error, D: Copy + Eq, E: Copy, F: Copy>() {}

// The bytes that `truncate` left in the buffer are not shown. The aliases name these types.
#[test]
fn known_values_are_shown(rt: HostRuntime) {
    let wrapped: multihash::Result<MultihashGeneric<9>> = Multihash::<9>::wrap(18, b"foobar");
    let m = expect_ok!(&rt; wrapped).truncate(3);
    let shown = expect_ok!(&rt; format!(in rt.alloc(); "{m:?}"));
    let wanted = "Multihash { code: 18, size: 3, digest: [102, 111, 111] }";
    check_eq!(&rt; shown.as_str(), wanted);
    expect_traits::<no_std_io::Error, multihash::Error, FormError, Head, Number, Bytes<1>>();
    let head = expect_ok!(&rt; Head::read_front(&[18, 3, 7]));
    let other = Head {
        digest_offset: 1,
        ..head
    };
    check!(&rt; head == head && other != head);
}
