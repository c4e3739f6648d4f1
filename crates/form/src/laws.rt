//! What holds of each form: facts about its encodings, and the round trip.
ghost use Rattle.std.specs.Prelude.{◌≡◌, ◌<◌, ◌⊎◌, ℕ, List, ◌++◌, length, Some, MatchResult, IsErr};
ghost use Rattle.multihash.specs.Bytes.{IsStrictPrefix};
ghost use Rattle.multihash.specs.Refusal.{IsIo, IsOutOfMemory, IsReaderError};
ghost use Rattle.multihash.specs.Writing.{AppendsPrefix, IsWriterFaultOrFull};
ghost use Rattle.form.specs.FormError.{IsFailed};

use crate::{Form, FormError, read};
use multihash::no_std_io::{Read, Write};
use std::alloc::Global;

/// States that each value has one encoding, which is not empty, and that two encodings at the start of one input are of
/// the same value, so that none is a strict prefix of another; that no input which starts with an encoding is rejected,
/// and that one which is rejected has one error. The function does nothing: a caller uses its contract.
pub fn prefix_free<T: Form>()
    ensures exists { (x : T) → (bytes : List ℕ) × T.is_form x bytes }
    ensures one { (x y : T) (a b : List ℕ) → T.same x y → T.is_form x a → T.is_form y b → a ≡ b }
    ensures unique { (x y : T) (a b r s : List ℕ) → T.is_form x a → T.is_form y b → a ++ r ≡ b ++ s →
        T.same x y × (r ≡ s) }
    ensures prefix { (x y : T) (a b : List ℕ) → T.is_form x a → T.is_form y b → ¬ (IsStrictPrefix a b) }
    ensures not_both { (x : T) (e : FormError) (a b r s : List ℕ) → T.is_form x a → T.rejects e b →
        a ++ r ≡ b ++ s → ⊥ }
    ensures one_error { (e f : FormError) (a b r s : List ℕ) → T.rejects e a → T.rejects f b →
        a ++ r ≡ b ++ s → (e ≡ f) × (r ≡ s) }
    ensures some { (x : T) (bytes : List ℕ) → T.is_form x bytes → 0 < length bytes }
{}

/// Writes a value to a writer, and reads a value back from a reader.
///
/// # Errors
///
/// Those of [`Form::write`] and [`Form::read`].
pub fn through<T: Form, W: Write, R: Read>(
    alloc: Global,
    value: &T,
    w: &mut W,
    r: &mut R,
) -> Result<T, FormError>
    // The encoding was appended, or, at an error, a strict prefix of it.
    ensures written { (bytes : List ℕ) × T.is_form value.now bytes
        × (W.appended w.old bytes w.new ⊎ (IsErr result × AppendsPrefix W.appended w.old bytes w.new)) }
    // If the reader's input is what was appended and then `more`, the value is read and `more` is left, or it is out of
    // memory, or the writer failed or was full, or the reader failed.
    ensures back { (more : List ℕ) →
        ((bytes : List ℕ) → W.appended w.old bytes w.new → R.rest r.old ≡ Some (bytes ++ more)) →
        MatchResult result (λ y. T.same y value.now × (R.rest r.new ≡ Some more))
        (λ e. IsFailed IsOutOfMemory e
        ⊎ IsFailed (IsIo (IsWriterFaultOrFull W.allocates (W.failures w.old) (W.failures w.new)
        (W.full w.new))) e
        ⊎ ((R.failures r.old < R.failures r.new) × IsFailed IsReaderError e)) }
{
    value.write(w)?;
    read::<T, R>(alloc, r)
}
