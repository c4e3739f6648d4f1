//! The lists of test vectors: each line is made again from its first columns. The same result has to come from few bytes
//! per call and from JSON, and the same multihash after it was encoded and decoded by each two encodings.
ghost use Rattle.std.specs.Prelude.{◌<◌, ◌^◌};

use crate::page::Page;
use crate::values::compared;
use fakes::Cuts;
use multihash::no_std_io::Read;
use multihash::{Error, Multihash};
use serde_json::Value;
use std::alloc::{AllocError, Global};
use std::fmt::{self, Display};

#[derive(Clone, Copy)]
enum Encoding {
    Binary,
    Scale,
    Json,
}

const ENCODINGS: [Encoding; 3] = [Encoding::Binary, Encoding::Scale, Encoding::Json];

impl Encoding {
    // JSON is not read from a reader.
    fn read<const S: usize, R: Read>(self, r: &mut R) -> Result<Multihash<S>, Error>
        requires { S < 2 ^ 16 }
    {
        match self {
            Encoding::Scale => Multihash::scale_decode(r),
            _ => Multihash::read(r),
        }
    }

    // Encodes a multihash, and decodes it with the capacity `T`.
    fn through<const S: usize, const T: usize>(
        self,
        alloc: Global,
        m: &Multihash<S>,
    ) -> Result<Multihash<T>, Error>
        requires { T < 2 ^ 16 }
    {
        match self {
            Encoding::Binary => Multihash::from_bytes(&m.to_bytes(alloc)?),
            Encoding::Scale => {
                let mut bytes = Vec::new(alloc);
                m.scale_encode(&mut bytes)?;
                Multihash::scale_decode(&mut bytes.as_slice())
            }
            Encoding::Json => Multihash::from_value(&m.to_value(alloc)?),
        }
    }
}

// Bytes as a column has them.
#[derive(Clone, Copy)]
struct Hex<'a>(&'a [u8]);

impl Display for Hex<'_> {
    fn fmt<W: fmt::Write>(&self, f: &mut fmt::Formatter<W>) -> fmt::Result {
        if self.0.is_empty() {
            return f.write_str("-");
        }
        for byte in self.0 {
            write!(f, "{byte:02x}")?;
        }
        Ok(())
    }
}

// The result of a call as a column has it.
#[derive(Drop)]
struct Verdict<const S: usize>(Result<Multihash<S>, Error>);

impl<const S: usize> Display for Verdict<S> {
    fn fmt<W: fmt::Write>(&self, f: &mut fmt::Formatter<W>) -> fmt::Result {
        let e = match &self.0 {
            Ok(m) => return write!(f, "pair {} {}", m.code(), Hex(m.digest())),
            Err(e) => e,
        };
        if let Some(size) = e.invalid_size() {
            write!(f, "invalid_size {size}")
        } else if let Some(code) = e.invalid_code() {
            write!(f, "invalid_code {code}")
        } else if e.is_insufficient() {
            f.write_str("insufficient")
        } else if e.is_overflow() {
            f.write_str("overflow")
        } else if e.is_not_minimal() {
            f.write_str("not_minimal")
        } else if e.io().is_some_and(|io| io.is_unexpected_eof()) {
            f.write_str("unexpected_eof")
        } else {
            f.write_str("another error")
        }
    }
}

// The result of a call that reads, and the number of bytes that it consumed, as two columns.
#[derive(Drop)]
struct Reading<const S: usize> {
    found: Verdict<S>,
    consumed: usize,
}

impl<const S: usize> Reading<S> {
    fn of_slice(encoding: Encoding, input: &[u8]) -> Self
        requires { S < 2 ^ 16 }
    {
        let mut left = input;
        let found = Verdict(encoding.read(&mut left));
        let consumed = input.len().saturating_sub(left.len());
        Reading { found, consumed }
    }

    fn of_slow(encoding: Encoding, input: &[u8], most: usize) -> Self
        requires capacity { S < 2 ^ 16 }
        requires some { 0 < most }
    {
        let mut slow = Cuts::new(input, most);
        let found = Verdict(encoding.read(&mut slow));
        let consumed = input.len().saturating_sub(slow.left.len());
        Reading { found, consumed }
    }

    fn is_incomplete(&self) -> bool {
        matches!(&self.found.0, Err(e) if e.is_incomplete())
    }
}

// How much of a truncated input is consumed depends on the reader, so the column is a dash.
impl<const S: usize> Display for Reading<S> {
    fn fmt<W: fmt::Write>(&self, f: &mut fmt::Formatter<W>) -> fmt::Result {
        write!(f, "{}\t", self.found)?;
        if self.is_incomplete() {
            return f.write_str("-");
        }
        write!(f, "{}", self.consumed)
    }
}

fn joined(alloc: Global, front: &[u8], more: &[u8]) -> Result<Vec<u8>, AllocError> {
    let mut bytes = front.to_vec(alloc)?;
    bytes.extend_from_slice(more)?;
    Ok(bytes)
}

const MORE: [&[u8]; 3] = [&[0], &[255], &[128, 128]];

// Few bytes per call have the result of the slice. The bytes that were consumed determine it, and fewer do not.
fn check_reading<const S: usize>(page: &mut Page, line: &str, encoding: Encoding, input: &[u8])
    requires { S < 2 ^ 16 }
{
    let reading = Reading::<S>::of_slice(encoding, input);
    let wanted = page.text_of(&reading);
    for most in 1..8 {
        let slow = Reading::<S>::of_slow(encoding, input, most);
        page.check(line, "by few bytes per call", slow, &wanted);
    }
    if reading.is_incomplete() {
        return;
    }
    let front = input.get(..reading.consumed).unwrap_or(&[]);
    for more in &MORE {
        let bytes = joined(page.alloc, front, more).unwrap_or(Vec::new(page.alloc));
        page.check(
            line,
            "and more",
            Reading::<S>::of_slice(encoding, &bytes),
            &wanted,
        );
    }
    if let Some((_, fewer)) = front.split_last() {
        let fewer = Reading::<S>::of_slice(encoding, fewer);
        page.check(
            line,
            "and fewer is incomplete",
            fewer.is_incomplete(),
            "true",
        );
    }
}

fn json_of(alloc: Global, bytes: &[u8]) -> Result<Value, AllocError> {
    let mut members = Vec::with_capacity(alloc, bytes.len())?;
    for byte in bytes {
        members.push(Value::from(*byte))?;
    }
    Ok(Value::Array(members))
}

fn check_input<const S: usize>(page: &mut Page, line: &str, input: &[u8])
    requires { S < 2 ^ 16 }
{
    let read = Reading::<S>::of_slice(Encoding::Binary, input);
    let scale = Reading::<S>::of_slice(Encoding::Scale, input);
    let whole = Verdict(Multihash::<S>::from_bytes(input));
    let made = format_args!("{S}\t{}\t{read}\t{whole}\t{scale}", Hex(input));
    page.check(line, "is made", made, line);
    check_reading::<S>(page, line, Encoding::Binary, input);
    check_reading::<S>(page, line, Encoding::Scale, input);
    let wanted = page.text_of(&whole);
    let json = json_of(page.alloc, input).unwrap_or(Value::Null);
    let found = Verdict(Multihash::<S>::from_value(&json));
    page.check(line, "from JSON", found, &wanted);
}

fn bytes_of(alloc: Global, digits: &str) -> Vec<u8> {
    hex::decode(alloc, if digits == "-" { "" } else { digits }).unwrap_or(Vec::new(alloc))
}

/// Calls a function for the capacity in a column, which is one of those that the lists have.
macro_rules! with_capacity {
    ($page:expr, $line:expr, $column:expr, $call:ident $arguments:tt) => {
        with_capacity!($page, $line, $column, $call $arguments; 0 1 2 4 16 32 64 128 200 255 256 300)
    };
    ($page:expr, $line:expr, $column:expr, $call:ident $arguments:tt; $($capacity:literal)+) => {
        match $column.parse::<u16>() {
            $(Ok($capacity) => $call::<$capacity> $arguments,)+
            _ => $page.row($line, "no such capacity"),
        }
    };
}

fn check_verdict(page: &mut Page, line: &str) {
    let mut columns = line.split('\t');
    let size = columns.next().unwrap_or("");
    let input = bytes_of(page.alloc, columns.next().unwrap_or(""));
    with_capacity!(page, line, size, check_input(page, line, &input));
}

// Encodes and decodes a multihash by each two encodings, the second time with the capacity `T`.
fn check_through<const S: usize, const T: usize>(page: &mut Page, line: &str, m: &Multihash<S>)
    requires source { S < 2 ^ 16 }
    requires last { T < 2 ^ 16 }
{
    let wanted = page.text_of(Verdict(Ok(*m)));
    for first in &ENCODINGS {
        for second in &ENCODINGS {
            let found = match first.through::<S, S>(page.alloc, m) {
                Ok(again) => second.through::<S, T>(page.alloc, &again),
                Err(e) => Err(e),
            };
            page.check(line, "by two encodings", Verdict(found), &wanted);
        }
    }
}

fn check_value<const S: usize>(page: &mut Page, line: &str, code: u64, digest: &[u8])
    requires { S < 2 ^ 16 }
{
    let (digits, made) = (Hex(digest), Verdict(Multihash::<S>::wrap(code, digest)));
    let Ok(m) = &made.0 else {
        let made = format_args!("value\t{S}\t{code}\t{digits}\t{made}\t{made}");
        return page.check(line, "is made", made, line);
    };
    let mut scale = Vec::new(page.alloc);
    let _count = m.scale_encode(&mut scale);
    let bytes = m.to_bytes(page.alloc).unwrap_or(Vec::new(page.alloc));
    let (bytes, scale) = (Hex(&bytes), Hex(&scale));
    let made = format_args!("value\t{S}\t{code}\t{digits}\t{bytes}\t{scale}");
    page.check(line, "is made", made, line);
    check_through::<S, 255>(page, line, m);
    if digest.len() <= 128 {
        check_through::<S, 128>(page, line, m);
    }
}

fn multihash_of(alloc: Global, code: &str, digest: &str) -> Multihash<255> {
    Multihash::wrap(code.parse().unwrap_or(0), &bytes_of(alloc, digest)).unwrap_or_default()
}

fn check_values(page: &mut Page, line: &str) {
    let mut columns = line.split('\t');
    let kind = columns.next().unwrap_or("");
    let first = columns.next().unwrap_or("");
    let second = columns.next().unwrap_or("");
    let third = columns.next().unwrap_or("");
    let fourth = columns.next().unwrap_or("");
    if kind == "value" {
        let (code, digest) = (second.parse().unwrap_or(0), bytes_of(page.alloc, third));
        with_capacity!(page, line, first, check_value(page, line, code, &digest));
        return;
    }
    let left = multihash_of(page.alloc, first, second);
    let right = multihash_of(page.alloc, third, fourth);
    let wanted = match columns.next().unwrap_or("") {
        "-1" => "Less",
        "0" => "Equal, ==, same hash",
        _ => "Greater",
    };
    page.check(line, "compares", compared(left, right), wanted);
}

/// Prints what differs.
pub fn check_lines(page: &mut Page, verdicts: &str, values: &str) {
    page.heading("Lines of test vectors with other results");
    for line in verdicts.lines().skip(1) {
        check_verdict(page, line);
    }
    for line in values.lines().skip(1) {
        check_values(page, line);
    }
}
