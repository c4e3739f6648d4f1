//! Values that fill an input, one after another.
ghost use Rattle.std.specs.Prelude.{◌≡◌, ◌++◌, ◌⊎◌, ℕ, List, MatchResult, IfOk, IfErr};
ghost use Rattle.multihash.specs.Streams.{AreParts};
ghost use Rattle.multihash.specs.Refusal.{IsOutOfMemory};
ghost use Rattle.form.specs.Form.{AreSame, Then};
ghost use Rattle.form.specs.FormError.{IsFailed};
ghost use Rattle.form.specs.Rejecting.{IsReadError};

use crate::{Form, FormError, read_front};
use std::alloc::Global;

/// Reads the values whose encodings, one after another, are the whole of `bytes`.
///
/// # Errors
///
/// Out of memory, or the first error of [`Form::read`].
pub fn all_from_bytes<T: Form + Drop>(alloc: Global, bytes: &[u8]) -> Result<Vec<T>, FormError>
    ensures ok { IfOk result (λ list. AreParts T.is_form list.items bytes.now) }
    ensures found { (xs : List T) → AreParts T.is_form xs bytes.now →
        MatchResult result (λ list. AreSame T.same list.items xs) (IsFailed IsOutOfMemory) }
    ensures err { IfErr result (λ e. (xs : List T) × (front : List ℕ) × (rest : List ℕ)
        × AreParts T.is_form xs front × (bytes.now ≡ front ++ rest)
        × IsReadError T.is_form T.rejects e rest) }
{
    let mut items = Vec::new(alloc);
    let mut rest = bytes;
    while !rest.is_empty() {
        let (item, left) = read_front::<T>(alloc, rest)?;
        items.push(item)?;
        rest = left;
    }
    Ok(items)
}

/// Reads a head, and then the values that fill the rest of `bytes`, one after another: an archive, such as a CAR file.
///
/// # Errors
///
/// Out of memory, or the first error of [`Form::read`].
pub fn head_and_all_from_bytes<H: Form + Drop, T: Form + Drop>(
    alloc: Global,
    bytes: &[u8],
) -> Result<(H, Vec<T>), FormError>
    ensures ok { IfOk result (λ x. Then (H.is_form x.0) (AreParts T.is_form x.1.items) bytes.now) }
    ensures found { (head : H) (xs : List T) → Then (H.is_form head) (AreParts T.is_form xs) bytes.now →
        MatchResult result (λ x. H.same x.0 head × AreSame T.same x.1.items xs) (IsFailed IsOutOfMemory) }
    ensures err { IfErr result (λ e. IsReadError H.is_form H.rejects e bytes.now
        ⊎ ((head : H) × (xs : List T) × (front : List ℕ) × (rest : List ℕ)
        × Then (H.is_form head) (AreParts T.is_form xs) front × (bytes.now ≡ front ++ rest)
        × IsReadError T.is_form T.rejects e rest)) }
{
    let (head, rest) = read_front::<H>(alloc, bytes)?;
    let items = all_from_bytes::<T>(alloc, rest)?;
    Ok((head, items))
}
