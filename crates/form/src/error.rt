//! The error of reading and writing forms.
ghost use Rattle.std.specs.Prelude.{◌≡◌, ◌↔◌, IsTrue, Some};
ghost use Rattle.form.specs.declared.error.FormError.TheVariants.{Failed};
ghost use Rattle.form.specs.FormError.{IsFailed, IsTruncated, form_error_text};
ghost use Rattle.multihash.specs.Refusal.{IsOutOfMemory, of_io};

use multihash::{Error, no_std_io};
use std::alloc::{AllocError, AllocFailed};
use std::fmt;

/// The error of reading or writing a form.
#[derive(Debug, Drop)]
pub enum FormError {
    /// A varint or a multihash is malformed, the input is truncated, the reader or the writer failed, or an
    /// allocation did.
    Failed(Error),
    /// There are this many items, more than the limit.
    TooMany(u64),
    /// The block has this many bytes, more than the limit.
    TooLong(u64),
    /// This number is none of the tags that may come here.
    OtherTag(u64),
    /// This many bytes follow the encoding.
    Trailing(usize),
}

impl FormError {
    /// Returns whether the input is truncated: with more bytes it could be valid.
    pub fn is_incomplete(&self) -> bool
        ensures { IsTrue result ↔ IsFailed IsTruncated self.now }
    {
        match self {
            FormError::Failed(e) => e.is_incomplete(),
            _ => false,
        }
    }
}

impl fmt::Display for FormError {
    ghost output = { λ e. Some (form_error_text e) };

    fn fmt<W: fmt::Write>(&self, f: &mut fmt::Formatter<W>) -> fmt::Result {
        match self {
            FormError::Failed(e) => fmt::Display::fmt(e, f),
            FormError::TooMany(n) => write!(f, "too many items: {n}"),
            FormError::TooLong(n) => write!(f, "a block is too long, in bytes: {n}"),
            FormError::OtherTag(n) => write!(f, "unexpected tag: {n}"),
            FormError::Trailing(n) => write!(f, "trailing bytes: {n}"),
        }
    }
}

impl std::error::Error for FormError {}

impl From<Error> for FormError {
    ghost from_gives = { λ error e. e ≡ Failed error };

    fn from(e: Error) -> Self {
        FormError::Failed(e)
    }
}

impl From<no_std_io::Error> for FormError {
    ghost from_gives = { λ error e. e ≡ Failed (of_io error) };

    fn from(e: no_std_io::Error) -> Self {
        FormError::Failed(Error::from(e))
    }
}

impl From<AllocError> for FormError {
    ghost from_gives = { λ _ e. IsFailed IsOutOfMemory e };

    fn from(e: AllocError) -> Self {
        FormError::Failed(Error::from(e))
    }
}

impl<T: Drop> From<AllocFailed<T>> for FormError {
    ghost from_gives = { λ _ e. IsFailed IsOutOfMemory e };

    fn from(_rejected: AllocFailed<T>) -> Self {
        FormError::from(AllocError)
    }
}
