//! The error of readers and writers.
ghost use Rattle.std.specs.Prelude.{◌≡◌, ◌↔◌, IsTrue, Some};
ghost use Rattle.multihash.specs.Fault.{Other, IsUnexpectedEof, IsWriteZero, IsOutOfMemoryFault, IsOther, printed};

use std::fmt;
use std::marker::Model;

/// The error of readers and writers: one of four kinds, and the text that it prints.
///
/// Exactly one of `is_unexpected_eof`, `is_write_zero`, `is_out_of_memory` and `is_other` is true of an
/// error.
#[derive(Debug, Drop)]
pub struct Error {
    kind: Kind,
}

// Each kind has its text: between a kind and a text of the struct there would be padding, which needs
// instructions wherever an error is returned.
#[derive(Debug, Drop)]
enum Kind {
    UnexpectedEof(&'static str),
    WriteZero(&'static str),
    OutOfMemory(&'static str),
    Other(&'static str),
}

impl Model for Error {
    ghost use Rattle.std.specs.Prelude.{◌≡◌};
    ghost use Rattle.multihash.specs.Fault.{Fault, fault_of, carried, printed};

    ghost Value = { Fault };

    ghost view = { λ e. fault_of e.kind };

    ghost invariant = { λ e. carried e.kind ≡ printed (fault_of e.kind) };
}

impl Error {
    /// Returns the error for truncated input. It prints `failed to fill whole buffer`.
    pub fn unexpected_eof() -> Self
        ensures { IsUnexpectedEof result }
    {
        Error {
            kind: Kind::UnexpectedEof("failed to fill whole buffer"),
        }
    }

    // A writer is full.
    pub(crate) fn write_zero() -> Self
        ensures { IsWriteZero result }
    {
        Error {
            kind: Kind::WriteZero("failed to write whole buffer"),
        }
    }

    /// Returns the error for a failed allocation. It prints `out of memory`.
    pub fn out_of_memory() -> Self
        ensures { IsOutOfMemoryFault result }
    {
        Error {
            kind: Kind::OutOfMemory("out of memory"),
        }
    }

    /// Returns an error of the reader or the writer itself, which prints `text`.
    pub fn other(text: &'static str) -> Self
        ensures { result ≡ Other text.now }
    {
        Error {
            kind: Kind::Other(text),
        }
    }

    /// Returns the text that `Display` prints.
    pub fn text(&self) -> &'static str
        ensures { result.now ≡ printed self.now }
    {
        match &self.kind {
            Kind::UnexpectedEof(text)
            | Kind::WriteZero(text)
            | Kind::OutOfMemory(text)
            | Kind::Other(text) => text,
        }
    }

    /// Returns whether the input ended before a buffer was full.
    pub fn is_unexpected_eof(&self) -> bool
        ensures { IsTrue result ↔ IsUnexpectedEof self.now }
    {
        matches!(&self.kind, Kind::UnexpectedEof(_))
    }

    /// Returns whether a writer was full.
    pub fn is_write_zero(&self) -> bool
        ensures { IsTrue result ↔ IsWriteZero self.now }
    {
        matches!(&self.kind, Kind::WriteZero(_))
    }

    /// Returns whether an allocation failed.
    pub fn is_out_of_memory(&self) -> bool
        ensures { IsTrue result ↔ IsOutOfMemoryFault self.now }
    {
        matches!(&self.kind, Kind::OutOfMemory(_))
    }

    /// Returns whether it is an error of the reader or the writer itself, made by [`Error::other`].
    pub fn is_other(&self) -> bool
        ensures { IsTrue result ↔ IsOther self.now }
    {
        matches!(&self.kind, Kind::Other(_))
    }
}

/// Prints the text alone, whatever width or precision is given.
impl fmt::Display for Error {
    ghost output = { λ e. Some (printed e) };

    ghost styled_output = { λ e _. Some (printed e) };

    fn fmt<W: fmt::Write>(&self, f: &mut fmt::Formatter<W>) -> fmt::Result {
        f.write_str(self.text())
    }
}

impl std::error::Error for Error {}
