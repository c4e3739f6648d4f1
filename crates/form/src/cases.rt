//! The trait of the cases of a choice.
ghost use Rattle.std.specs.Prelude.{◌≡◌, ◌++◌, ◌<◌, ℕ, List, OnOk, OnErr, IfOk, IfErr};
ghost use Rattle.multihash.specs.Varint.{varint_limit};
ghost use Rattle.multihash.specs.Consuming.{ConsumesSome};
ghost use Rattle.multihash.specs.Reading.{CountsReaderFailures};
ghost use Rattle.multihash.specs.Writing.{CountsWriterFailures};
ghost use Rattle.multihash.specs.Refusal.{IsIo, IsReaderError};
ghost use Rattle.form.specs.Form.{AppendsSome, AppendsPrefixOfSome};
ghost use Rattle.form.specs.FormError.{IsFailed, IsTruncated};
ghost use Rattle.form.specs.Rejecting.{IsCase, ReadStops};
ghost use Rattle.form.specs.declared.error.FormError.{FormError as ReadError};

use crate::{FormError, Number};
use multihash::no_std_io::{Read, Write};
use std::alloc::Global;

/// A value that has a tag, which determines how the value is encoded: what a [`Choice`](crate::Choice) is made of.
/// [`Case`](crate::Case) and [`Tagged`](crate::Tagged) implement it.
///
/// The laws of [`Form`](crate::Form) hold of the values with one tag.
pub trait Cases {
    // The tag of the value.
    ghost tag_of: { Self → ℕ };

    // The bytes are the encoding of the value, without its tag.
    ghost is_value: { Self → List ℕ → Type 0 };

    // The two values have one tag and are the same, as far as their encodings show.
    ghost same: { Self → Self → Type 0 };

    // The errors of reading a value of this tag if the reader does not fail.
    ghost rejects_with: { ℕ → ReadError → Type 0 };

    // After this tag, an input that starts with the bytes has this error, and the last of them shows it, or the tag
    // itself if they are none.
    ghost rejects: { ℕ → ReadError → List ℕ → Type 0 };

    /// Returns the tag.
    fn tag(&self) -> Number
        ensures { result.value ≡ tag_of self.now };

    /// Appends the encoding without its tag to `w`.
    ///
    /// # Errors
    ///
    /// The writer's error. A strict prefix of what was to be written has been appended then.
    fn write_value<W: Write>(&self, w: &mut W) -> Result<(), FormError>
        ensures ok { OnOk result (AppendsSome W.appended (is_value self.now) w.old w.new) }
        ensures err { OnErr result (AppendsPrefixOfSome W.appended (is_value self.now) w.old w.new) }
        ensures faults { CountsWriterFailures (λ P. IsFailed (IsIo P)) W.allocates
            (W.failures w.old) (W.failures w.new) (W.full w.new) result };

    /// Reads the value that has this tag, which was consumed, and leaves what follows it in `r` unread.
    ///
    /// # Errors
    ///
    /// [`FormError::OtherTag`] with the tag if it is that of no case, or those of [`Form::read`](crate::Form::read).
    fn read_value<R: Read>(alloc: Global, r: &mut R, tag: Number) -> Result<Self, FormError>
        ensures tag { IfOk result (λ x. tag_of x ≡ tag.value) }
        ensures ok { IfOk result (λ x. ConsumesSome (is_value x) (R.rest r.old) (R.rest r.new)) }
        ensures faults { CountsReaderFailures (IsFailed IsReaderError) (rejects_with tag.value)
            (R.failures r.old) (R.failures r.new) result }
        ensures err { IfErr result (λ e. ReadStops (IsCase tag_of is_value tag.value) (rejects tag.value)
            (R.failures r.old) (R.failures r.new) e (R.rest r.old) (R.rest r.new)) };

    // Each tag has a varint.
    ghost in_range: { (x : Self) → tag_of x < varint_limit };

    // Values that are the same have one tag.
    ghost same_tag: { (x y : Self) → same x y → tag_of x ≡ tag_of y };

    // Each value has an encoding.
    ghost exists: { (x : Self) → (bytes : List ℕ) × is_value x bytes };

    // Two encodings at the start of one input are of the same value, and so is what follows them.
    ghost unique: { (x y : Self) → tag_of x ≡ tag_of y → (a b r s : List ℕ) → is_value x a → is_value y b →
        a ++ r ≡ b ++ s → same x y × (r ≡ s) };

    // No input starts with an encoding and with bytes that are rejected.
    ghost not_both: { (x : Self) (e : ReadError) (a b r s : List ℕ) → is_value x a → rejects (tag_of x) e b →
        a ++ r ≡ b ++ s → ⊥ };

    // An input has one error, shown at one place.
    ghost rejects_unique: { (n : ℕ) (e f : ReadError) (a b r s : List ℕ) → rejects n e a → rejects n f b →
        a ++ r ≡ b ++ s → (e ≡ f) × (r ≡ s) };

    // An input that is rejected is not reported as truncated.
    ghost not_truncated: { (n : ℕ) (e : ReadError) (bytes : List ℕ) → rejects n e bytes → ¬ (IsFailed IsTruncated e) };

    // A value has only one encoding.
    ghost one: { (x y : Self) (a b : List ℕ) → same x y → is_value x a → is_value y b → a ≡ b };
}
