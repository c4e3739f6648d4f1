//! The library's error.
ghost use Rattle.std.specs.Prelude.{◌≡◌, ◌≢◌, ◌++◌, ◌⊎◌, ℕ, ◌↔◌, IsTrue, Some, IfSome, IfNone, codes};
ghost use Rattle.std.specs.Fmt.{WritesOnOk, WritesStyledOnOk, decimal};
ghost use Rattle.multihash.specs.Varint.{insufficient, overflow, not_minimal};
ghost use Rattle.multihash.specs.Fault.{Fault};
ghost use Rattle.multihash.specs.Refusal.{of_io, refusal_text, IsInvalidSize, IsInvalidCode, IsVarintError, IsNotBytes, IsEof, IsOutOfMemory};
ghost use Rattle.multihash.specs.Verdict.{Verdict, IsIncomplete};
ghost use Rattle.multihash.specs.Outcome.{IsErrorOf};

use crate::no_std_io;
use std::alloc::{AllocError, AllocFailed};
use std::fmt;
use std::marker::Model;

#[derive(Debug, Drop)]
enum Kind {
    Io(no_std_io::Error),
    InvalidSize(u64),
    InvalidCode(u64),
    Insufficient,
    Overflow,
    NotMinimal,
    NotBytes,
}

/// The error of this library's calls.
///
/// Exactly one of seven kinds applies to an error: [`Error::invalid_size`], [`Error::invalid_code`] or
/// [`Error::io`] is `Some`, or one of the four tests [`Error::is_insufficient`],
/// [`Error::is_overflow`], [`Error::is_not_minimal`] and [`Error::is_not_bytes`] is true.
#[derive(Debug, Drop)]
pub struct Error {
    kind: Kind,
}

impl Model for Error {
    ghost use Rattle.multihash.specs.Refusal.{Refusal, refusal_of};

    ghost Value = { Refusal };

    ghost view = { λ e. refusal_of e.kind };
}

impl Error {
    pub(crate) fn from_size(size: u64) -> Self
        ensures { IsInvalidSize size result }
    {
        Error {
            kind: Kind::InvalidSize(size),
        }
    }

    pub(crate) fn from_code(code: u64) -> Self
        ensures { IsInvalidCode code result }
    {
        Error {
            kind: Kind::InvalidCode(code),
        }
    }

    pub(crate) fn insufficient() -> Self
        ensures { IsVarintError insufficient result }
    {
        Error {
            kind: Kind::Insufficient,
        }
    }

    pub(crate) fn overflow() -> Self
        ensures { IsVarintError overflow result }
    {
        Error {
            kind: Kind::Overflow,
        }
    }

    pub(crate) fn not_minimal() -> Self
        ensures { IsVarintError not_minimal result }
    {
        Error {
            kind: Kind::NotMinimal,
        }
    }

    pub(crate) fn not_bytes() -> Self
        ensures { IsNotBytes result }
    {
        Error {
            kind: Kind::NotBytes,
        }
    }

    /// Returns the invalid size: the length of a digest longer than `min(S, 255)` for the capacity `S`,
    /// or the number of trailing bytes, or of trailing members of a JSON array.
    pub fn invalid_size(&self) -> Option<u64>
        ensures { (size : ℕ) → ((result ≡ Some size) ↔ IsInvalidSize size self.now) }
    {
        match self.kind {
            Kind::InvalidSize(size) => Some(size),
            _ => None,
        }
    }

    /// Returns the invalid code, which is 2^63 or more.
    pub fn invalid_code(&self) -> Option<u64>
        ensures { (code : ℕ) → ((result ≡ Some code) ↔ IsInvalidCode code self.now) }
    {
        match self.kind {
            Kind::InvalidCode(code) => Some(code),
            _ => None,
        }
    }

    /// Returns whether the input ended before or inside a varint.
    pub fn is_insufficient(&self) -> bool
        ensures { IsTrue result ↔ IsVarintError insufficient self.now }
    {
        matches!(self.kind, Kind::Insufficient)
    }

    /// Returns whether a varint has more than nine bytes, as every number of 2^63 or more needs.
    pub fn is_overflow(&self) -> bool
        ensures { IsTrue result ↔ IsVarintError overflow self.now }
    {
        matches!(self.kind, Kind::Overflow)
    }

    /// Returns whether a varint of more than one byte ends in a zero byte.
    pub fn is_not_minimal(&self) -> bool
        ensures { IsTrue result ↔ IsVarintError not_minimal self.now }
    {
        matches!(self.kind, Kind::NotMinimal)
    }

    /// Returns whether a JSON value is not an array of whole numbers from 0 to 255.
    pub fn is_not_bytes(&self) -> bool
        ensures { IsTrue result ↔ IsNotBytes self.now }
    {
        matches!(self.kind, Kind::NotBytes)
    }

    /// Returns whether the input is incomplete: it ended before or inside a varint, or before the end of
    /// a digest or of a fixed-size part. It is true if [`Error::is_insufficient`] is, and if
    /// [`Error::io`] is an unexpected end of file.
    ///
    /// For `read` that is exactly when more input could change the result. More input also changes an
    /// error of `from_bytes` or `from_value` that counts trailing bytes.
    pub fn is_incomplete(&self) -> bool
        ensures ends { IsTrue result ↔ (IsVarintError insufficient self.now ⊎ IsEof self.now) }
        ensures incomplete { (v : Verdict) → IsErrorOf self.now v → (IsTrue result ↔ IsIncomplete v) }
    {
        match &self.kind {
            Kind::Io(e) => e.is_unexpected_eof(),
            Kind::Insufficient => true,
            _ => false,
        }
    }

    /// Returns the I/O error, if it is one: the input ended before the end of a digest or of a fixed-size
    /// part, the writer is full, an allocation failed, or the reader or the writer itself failed.
    pub fn io(&self) -> Option<&no_std_io::Error>
        ensures some { IfSome result (λ e. self.now ≡ of_io e.now) }
        ensures none { IfNone result ((error : Fault) → self.now ≢ of_io error) }
    {
        match &self.kind {
            Kind::Io(e) => Some(e),
            _ => None,
        }
    }
}

impl From<no_std_io::Error> for Error {
    ghost from_gives = { λ error e. e ≡ of_io error };

    fn from(e: no_std_io::Error) -> Self {
        Error { kind: Kind::Io(e) }
    }
}

impl From<AllocError> for Error {
    ghost from_gives = { λ _ e. IsOutOfMemory e };

    fn from(_e: AllocError) -> Self {
        Error::from(no_std_io::Error::out_of_memory())
    }
}

/// Makes `?` work after `v.push(x)`. The value that was not stored is dropped.
impl<T: Drop> From<AllocFailed<T>> for Error {
    ghost from_gives = { λ _ e. IsOutOfMemory e };

    fn from(_rejected: AllocFailed<T>) -> Self {
        Error::from(AllocError)
    }
}

// Not by `write!`, whose contract states nothing if a width or a precision is given.
fn write_number_text<W: fmt::Write>(
    f: &mut fmt::Formatter<W>,
    front: &str,
    number: u64,
) -> fmt::Result
    ensures plain { WritesOnOk W.write_str_gives f.old result
        (front.now ++ decimal number ++ codes ".") f.new }
    ensures styled { WritesStyledOnOk W.write_str_gives f.old result
        (front.now ++ decimal number ++ codes ".") f.new }
{
    let mut digits = itoa::Buffer::new();
    f.write_str(front)?;
    f.write_str(digits.format(number))?;
    f.write_str(".")
}

/// Prints the text alone, whatever width or precision is given.
impl fmt::Display for Error {
    ghost output = { λ e. Some (refusal_text e) };

    ghost styled_output = { λ e _. Some (refusal_text e) };

    fn fmt<W: fmt::Write>(&self, f: &mut fmt::Formatter<W>) -> fmt::Result {
        match &self.kind {
            Kind::Io(e) => f.write_str(e.text()),
            Kind::InvalidSize(size) => write_number_text(f, "Invalid multihash size ", *size),
            Kind::InvalidCode(code) => write_number_text(f, "Invalid multihash code ", *code),
            Kind::Insufficient => f.write_str("not enough input bytes"),
            Kind::Overflow => f.write_str("input bytes exceed maximum"),
            Kind::NotMinimal => f.write_str("encoding is not minimal"),
            Kind::NotBytes => f.write_str("Failed to deserialize Multihash"),
        }
    }
}

impl std::error::Error for Error {}
