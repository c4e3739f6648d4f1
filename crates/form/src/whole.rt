//! The functions that read and write a value of any form. Their contracts follow from those of the trait.
ghost use Rattle.std.specs.Prelude.{◌≡◌, ◌≢◌, ◌⊎◌, ◌^◌, ◌-◌, ℕ, List, [], ◌++◌, length, min, Some, MatchResult, IfOk, IfErr, IsErrAnd};
ghost use Rattle.multihash.specs.Bytes.{IsStrictPrefix};
ghost use Rattle.multihash.specs.Consuming.{ConsumesSome};
ghost use Rattle.multihash.specs.Reading.{CountsReaderFailures};
ghost use Rattle.multihash.specs.Refusal.{IsOutOfMemory, IsReaderError};
ghost use Rattle.form.specs.FormError.{IsFailed, IsTruncated};
ghost use Rattle.form.specs.Rejecting.{ReadStops, IsReadError, IsWholeError};
ghost use Rattle.form.specs.declared.error.FormError.TheVariants.{Trailing};

use crate::{ByteCount, Form, FormError};
use multihash::no_std_io::Read;
use std::alloc::Global;

/// Reads the value whose encoding comes next, as [`Form::read`] does.
///
/// # Errors
///
/// Those of [`Form::read`].
pub fn read<T: Form, R: Read>(alloc: Global, r: &mut R) -> Result<T, FormError>
    ensures ok { IfOk result (λ x. ConsumesSome (T.is_form x) (R.rest r.old) (R.rest r.new)) }
    ensures faults { CountsReaderFailures (IsFailed IsReaderError) T.rejects_with
        (R.failures r.old) (R.failures r.new) result }
    ensures err { IfErr result (λ e. ReadStops T.is_form T.rejects (R.failures r.old) (R.failures r.new) e
        (R.rest r.old) (R.rest r.new)) }
    // A value that comes next is found, and what follows it is left.
    ensures found { (x : T) (bytes more : List ℕ) → T.is_form x bytes → R.rest r.old ≡ Some (bytes ++ more) →
        R.failures r.new ≡ R.failures r.old →
        MatchResult result (λ y. T.same y x × (R.rest r.new ≡ Some more)) (IsFailed IsOutOfMemory) }
    // If the input ends within a value, the error says so.
    ensures truncated { (x : T) (bytes part : List ℕ) → T.is_form x bytes → IsStrictPrefix part bytes →
        R.rest r.old ≡ Some part → R.failures r.new ≡ R.failures r.old →
        IsErrAnd result (λ e. IsFailed IsTruncated e ⊎ IsFailed IsOutOfMemory e) }
    // If the input is rejected, the error is the one that it shows, and exactly the bytes that show it are consumed.
    ensures rejected { (e : FormError) (front more : List ℕ) → T.rejects e front →
        R.rest r.old ≡ Some (front ++ more) → R.failures r.new ≡ R.failures r.old →
        IsErrAnd result (λ f. ((f ≡ e) × (R.rest r.new ≡ Some more)) ⊎ IsFailed IsOutOfMemory f) }
{
    T::read(alloc, r)
}

/// Reads the value whose encoding is the whole of `bytes`.
///
/// # Errors
///
/// - Those of [`Form::read`].
/// - [`FormError::Trailing`] with the number of bytes that follow the encoding.
pub fn from_bytes<T: Form + Drop>(alloc: Global, bytes: &[u8]) -> Result<T, FormError>
    ensures ok { IfOk result (λ x. T.is_form x bytes.now) }
    ensures found { (x : T) → T.is_form x bytes.now →
        MatchResult result (λ y. T.same y x) (IsFailed IsOutOfMemory) }
    ensures truncated { (x : T) (whole : List ℕ) → T.is_form x whole → IsStrictPrefix bytes.now whole →
        IsErrAnd result (λ e. IsFailed IsTruncated e ⊎ IsFailed IsOutOfMemory e) }
    ensures trailing { (x : T) (front more : List ℕ) → T.is_form x front → more ≢ [] → bytes.now ≡ front ++ more →
        IsErrAnd result (λ e. (e ≡ Trailing (length more)) ⊎ IsFailed IsOutOfMemory e) }
    ensures rejected { (e : FormError) (front more : List ℕ) → T.rejects e front → bytes.now ≡ front ++ more →
        IsErrAnd result (λ f. (f ≡ e) ⊎ IsFailed IsOutOfMemory f) }
    ensures err { IfErr result (λ e. IsWholeError T.is_form T.rejects e bytes.now) }
{
    let mut rest = bytes;
    let value = read::<T, &[u8]>(alloc, &mut rest)?;
    if rest.is_empty() {
        Ok(value)
    } else {
        Err(FormError::Trailing(rest.len()))
    }
}

/// Reads the value whose encoding is at the start of `bytes`, and returns it with the bytes that follow: for a format
/// whose last part has no length.
///
/// # Errors
///
/// Those of [`Form::read`].
pub fn read_front<T: Form>(alloc: Global, bytes: &[u8]) -> Result<(T, &[u8]), FormError>
    ensures ok { IfOk result (λ x. (front : List ℕ) × T.is_form x.0 front × (bytes.now ≡ front ++ x.1.now)) }
    ensures found { (x : T) (front rest : List ℕ) → T.is_form x front → bytes.now ≡ front ++ rest →
        MatchResult result (λ y. T.same y.0 x × (y.1.now ≡ rest)) (IsFailed IsOutOfMemory) }
    ensures truncated { (x : T) (front : List ℕ) → T.is_form x front → IsStrictPrefix bytes.now front →
        IsErrAnd result (λ e. IsFailed IsTruncated e ⊎ IsFailed IsOutOfMemory e) }
    ensures rejected { (e : FormError) (front more : List ℕ) → T.rejects e front → bytes.now ≡ front ++ more →
        IsErrAnd result (λ f. (f ≡ e) ⊎ IsFailed IsOutOfMemory f) }
    ensures err { IfErr result (λ e. IsReadError T.is_form T.rejects e bytes.now) }
{
    let mut rest = bytes;
    let value = read::<T, &[u8]>(alloc, &mut rest)?;
    Ok((value, rest))
}

/// Returns the encoding.
///
/// # Errors
///
/// Out of memory.
pub fn to_bytes<T: Form>(alloc: Global, value: &T) -> Result<Vec<u8>, FormError>
    ensures ok { IfOk result (λ bytes. T.is_form value.now bytes.items) }
    ensures err { IfErr result (IsFailed IsOutOfMemory) }
{
    let mut bytes = Vec::with_capacity(alloc, encoded_len(value) as usize)?;
    value.write(&mut bytes)?;
    Ok(bytes)
}

/// Returns the number of bytes of the encoding, or `u64::MAX` if it has more. It writes the value to a [`ByteCount`].
pub fn encoded_len<T: Form>(value: &T) -> u64
    ensures { (bytes : List ℕ) × T.is_form value.now bytes × (result ≡ min (length bytes) (2 ^ 64 - 1)) }
{
    let mut counter = ByteCount { count: 0 };
    value.write(&mut counter).unwrap();
    counter.count
}
