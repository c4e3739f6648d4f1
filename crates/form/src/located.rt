//! Where an input is wrong, for those who ask after an error.
ghost use Rattle.std.specs.Prelude.{◌≡◌, ◌≢◌, ◌⊎◌, ◌+◌, ◌++◌, ℕ, List, [], length, IfSome, IfNone, IsSomeAnd};
ghost use Rattle.multihash.specs.Bytes.{IsStrictPrefix};
ghost use Rattle.multihash.specs.Streams.{AreParts};
ghost use Rattle.multihash.specs.Refusal.{IsOutOfMemory};
ghost use Rattle.form.specs.FormError.{IsFailed, IsTruncated};
ghost use Rattle.form.specs.Located.{IsAt, IsFirstError};
ghost use Rattle.form.specs.declared.error.FormError.{FormError as ReadError};

use crate::{Form, FormError, read};
use std::alloc::Global;

/// An error, and where it is.
#[derive(Debug, Drop)]
pub struct LocatedError {
    /// The error.
    pub error: FormError,
    /// The number of values before the wrong one.
    pub item: usize,
    /// The offset at which the wrong value starts.
    pub start: usize,
    /// The offset after the byte that shows the error, or the length of a truncated input. It is not stated where
    /// memory ran out.
    pub offset: usize,
}

/// Returns the first error of the values whose encodings fill `bytes`, one after another, and where it is, or `None` if
/// there is none. It reads as [`all_from_bytes`](crate::all_from_bytes) does, and keeps no value: for a caller that got
/// an error and asks for its place. Out of memory is an error, too.
pub fn first_error<T: Form + Drop>(alloc: Global, bytes: &[u8]) -> Option<LocatedError>
    ensures none { IfNone result ((xs : List T) × AreParts T.is_form xs bytes.now) }
    ensures some { IfSome result (IsFirstError T.is_form T.rejects bytes.now) }
    ensures found { (xs : List T) → AreParts T.is_form xs bytes.now →
        IfSome result (λ x. IsFailed IsOutOfMemory x.error) }
    ensures rejected { (xs : List T) (e : ReadError) (front shown more : List ℕ) → AreParts T.is_form xs front →
        T.rejects e shown → bytes.now ≡ front ++ (shown ++ more) →
        IsSomeAnd result (λ x. ((x.error ≡ e) × IsAt x (length xs) (length front) (length front + length shown))
        ⊎ IsFailed IsOutOfMemory x.error) }
    ensures truncated { (xs : List T) (x : T) (front part whole : List ℕ) → AreParts T.is_form xs front →
        T.is_form x whole → IsStrictPrefix part whole → part ≢ [] → bytes.now ≡ front ++ part →
        IsSomeAnd result (λ y. (IsFailed IsTruncated y.error × IsAt y (length xs) (length front) (length bytes.now))
        ⊎ IsFailed IsOutOfMemory y.error) }
{
    let mut item = 0;
    let mut rest = bytes;
    while !rest.is_empty() {
        let start = bytes.len() - rest.len();
        if let Err(error) = read::<T, &[u8]>(alloc, &mut rest) {
            let offset = if error.is_incomplete() {
                bytes.len()
            } else {
                bytes.len().saturating_sub(rest.len())
            };
            return Some(LocatedError {
                error,
                item,
                start,
                offset,
            });
        }
        item += 1;
    }
    None
}
