//! The page that is printed, and its notation.
use multihash::{Error, Multihash};
use std::alloc::Global;
use std::fmt::{Debug, Display, Write};
use std::{fmt, io};

/// Calls with their results, each of which is a row.
macro_rules! rows {
    ($page:expr; $($call:expr => $result:expr;)+) => { { $($page.row($call, $result);)+ } };
}

pub(crate) use rows;

/// A value or the text of an error.
#[derive(Drop)]
pub struct Outcome<T, E>(pub Result<T, E>);

impl<T: Debug, E: Display> Display for Outcome<T, E> {
    fn fmt<W: fmt::Write>(&self, f: &mut fmt::Formatter<W>) -> fmt::Result {
        match &self.0 {
            Ok(value) => write!(f, "{value:?}"),
            Err(e) => write!(f, "{e}"),
        }
    }
}

/// A multihash, as its code and its digest.
#[derive(Clone, Copy)]
pub struct Pair<const S: usize>(pub Multihash<S>);

impl<const S: usize> Display for Pair<S> {
    fn fmt<W: fmt::Write>(&self, f: &mut fmt::Formatter<W>) -> fmt::Result {
        write!(f, "({}, {})", self.0.code(), Bytes(self.0.digest()))
    }
}

/// A multihash or the text of an error, and what is left of the input.
#[derive(Drop)]
pub struct Found<'a, const S: usize>(pub Result<Multihash<S>, Error>, pub &'a [u8]);

impl<const S: usize> Display for Found<'_, S> {
    fn fmt<W: fmt::Write>(&self, f: &mut fmt::Formatter<W>) -> fmt::Result {
        match &self.0 {
            Ok(m) => write!(f, "{}{}", Pair(*m), Left(self.1)),
            Err(e) => write!(f, "{e}{}", Left(self.1)),
        }
    }
}

/// What is left of an input.
#[derive(Clone, Copy)]
pub struct Left<'a>(pub &'a [u8]);

impl Display for Left<'_> {
    fn fmt<W: fmt::Write>(&self, f: &mut fmt::Formatter<W>) -> fmt::Result {
        if self.0.is_empty() {
            return Ok(());
        }
        write!(f, ", left {}", Bytes(self.0))
    }
}

/// Bytes in hexadecimal; a few letters as text.
#[derive(Clone, Copy)]
pub struct Bytes<'a>(pub &'a [u8]);

// Bytes that are fewer may be shown as text, and this many equal ones are shown as one and their number.
const MANY: usize = 16;

fn are_few_letters(bytes: &[u8]) -> bool {
    let are_letters = bytes
        .iter()
        .all(|byte| byte.is_ascii_alphabetic() || *byte == b' ');
    are_letters && 0 < bytes.len() && bytes.len() < MANY
}

// The number of bytes at the start that are equal to this one.
fn count_equal(byte: u8, bytes: &[u8]) -> usize {
    bytes
        .iter()
        .position(|other| *other != byte)
        .unwrap_or(bytes.len())
}

impl Display for Bytes<'_> {
    fn fmt<W: fmt::Write>(&self, f: &mut fmt::Formatter<W>) -> fmt::Result {
        if are_few_letters(self.0) {
            return write!(f, "\"{}\"", str::from_utf8(self.0).unwrap_or(""));
        }
        f.write_str("[")?;
        let mut left = self.0;
        for _ in 0..self.0.len() {
            let Some((first, others)) = left.split_first() else {
                break;
            };
            let blank = if left.len() < self.0.len() { " " } else { "" };
            write!(f, "{blank}{first:02x}")?;
            left = others;
            let count = count_equal(*first, others);
            if count >= MANY - 1 {
                write!(f, "*{}", count.saturating_add(1))?;
                left = others.get(count..).unwrap_or(&[]);
            }
        }
        f.write_str("]")
    }
}

/// Rows of calls and their results.
///
/// No method returns an error, so that no proof has a case for one. Instead `finish` does.
#[derive(Drop)]
pub struct Page {
    pub alloc: Global,
    text: String,
    failed: bool,
}

impl Page {
    pub fn new(alloc: Global) -> Self {
        Page {
            alloc,
            text: String::new(alloc),
            failed: false,
        }
    }

    /// The text of the page.
    pub fn finish(self) -> io::Result<String> {
        if self.failed {
            return Err(io::ErrorKind::OutOfMemory.into());
        }
        Ok(self.text)
    }

    pub fn heading(&mut self, heading: &str) {
        let start = if self.text.is_empty() { "" } else { "\n" };
        self.failed |= write!(self.text, "{start}# {heading}\n\n").is_err();
    }

    /// The text of a value.
    pub fn text_of(&mut self, value: impl Display + Drop) -> String {
        match format!(in self.alloc; "{value}") {
            Ok(text) => text,
            Err(_) => {
                self.failed = true;
                String::new(self.alloc)
            }
        }
    }

    pub fn row(&mut self, call: impl Display + Drop, found: impl Display + Drop) {
        let call = self.text_of(call);
        self.failed |= write!(self.text, "{call:56}  {found}\n").is_err();
    }

    /// Prints a row if what was found for a call, made in this way, is not what is wanted.
    pub fn check(
        &mut self,
        call: impl Display + Drop,
        way: &str,
        found: impl Display + Drop,
        wanted: &str,
    ) {
        let found = self.text_of(found);
        if found.as_str() != wanted {
            self.row(format_args!("{call}, {way}"), found);
        }
    }
}
