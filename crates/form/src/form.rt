//! The trait of types whose values have exactly one encoding each.
ghost use Rattle.std.specs.Prelude.{◌≡◌, ◌++◌, ◌<◌, ℕ, List, length, OnOk, OnErr, IfOk, IfErr};
ghost use Rattle.multihash.specs.Consuming.{ConsumesSome};
ghost use Rattle.multihash.specs.Reading.{CountsReaderFailures};
ghost use Rattle.multihash.specs.Writing.{CountsWriterFailures};
ghost use Rattle.multihash.specs.Refusal.{IsIo, IsReaderError};
ghost use Rattle.form.specs.Form.{AppendsSome, AppendsPrefixOfSome};
ghost use Rattle.form.specs.FormError.{IsFailed, IsTruncated};
ghost use Rattle.form.specs.Rejecting.{ReadStops};
ghost use Rattle.form.specs.declared.error.FormError.{FormError as ReadError};

use crate::FormError;
use multihash::no_std_io::{Read, Write};
use std::alloc::Global;

/// A value with one encoding, which is not empty and no prefix of another one.
///
/// Each implementation keeps these laws. Those of the parts are proved:
///
/// - A value has one encoding, and values that differ have different ones. What was written is read back, and what
///   follows it is left unread.
/// - No encoding is empty or a prefix of another one, so concatenated encodings can be split in one way only.
/// - An input that starts with no encoding has one error. One byte shows it, whatever follows that byte, and `read`
///   consumes the input up to there.
/// - An input that ends before that is incomplete. Its error says so, and no other one does.
pub trait Form {
    // The ghost members are what contracts state of a form, and the laws at the end are what each implementation
    // proves. `read`, `from_bytes` and the functions of the module `laws` have more contracts, which follow from these.
    //
    // The bytes are the encoding of the value.
    ghost is_form: { Self → List ℕ → Type 0 };

    // The two values are the same, as far as their encodings show.
    ghost same: { Self → Self → Type 0 };

    // The errors of `read` if the reader does not fail.
    ghost rejects_with: { ReadError → Type 0 };

    // An input that starts with the bytes has this error, and the last of them shows it.
    ghost rejects: { ReadError → List ℕ → Type 0 };

    /// Appends the encoding to `w`.
    ///
    /// # Errors
    ///
    /// The writer's error. A strict prefix of the encoding has been appended then.
    fn write<W: Write>(&self, w: &mut W) -> Result<(), FormError>
        ensures ok { OnOk result (AppendsSome W.appended (is_form self.now) w.old w.new) }
        ensures err { OnErr result (AppendsPrefixOfSome W.appended (is_form self.now) w.old w.new) }
        ensures faults { CountsWriterFailures (λ P. IsFailed (IsIo P)) W.allocates
            (W.failures w.old) (W.failures w.new) (W.full w.new) result };

    /// Reads the value whose encoding comes next, and leaves what follows it in `r` unread.
    ///
    /// # Errors
    ///
    /// The reader's own error, or one of those in the description of the type:
    ///
    /// - If the encoding of a value comes next, out of memory is the only one.
    /// - If the input is malformed, it was consumed up to the byte that shows the error.
    /// - If the input ends before that, [`FormError::is_incomplete`] or out of memory.
    fn read<R: Read>(alloc: Global, r: &mut R) -> Result<Self, FormError>
        ensures ok { IfOk result (λ x. ConsumesSome (is_form x) (R.rest r.old) (R.rest r.new)) }
        ensures faults { CountsReaderFailures (IsFailed IsReaderError) rejects_with
            (R.failures r.old) (R.failures r.new) result }
        ensures err { IfErr result (λ e. ReadStops is_form rejects (R.failures r.old) (R.failures r.new) e
            (R.rest r.old) (R.rest r.new)) };

    // Each value has an encoding.
    ghost exists: { (x : Self) → (bytes : List ℕ) × is_form x bytes };

    // Two encodings at the start of one input are of the same value, and so is what follows them.
    ghost unique: { (x y : Self) (a b r s : List ℕ) → is_form x a → is_form y b → a ++ r ≡ b ++ s →
        same x y × (r ≡ s) };

    // No input starts with an encoding and with bytes that are rejected.
    ghost not_both: { (x : Self) (e : ReadError) (a b r s : List ℕ) → is_form x a → rejects e b →
        a ++ r ≡ b ++ s → ⊥ };

    // An input has one error, shown at one place.
    ghost rejects_unique: { (e f : ReadError) (a b r s : List ℕ) → rejects e a → rejects f b →
        a ++ r ≡ b ++ s → (e ≡ f) × (r ≡ s) };

    // An input is not rejected before its first byte.
    ghost rejects_some: { (e : ReadError) (bytes : List ℕ) → rejects e bytes → 0 < length bytes };

    // An input that is rejected is not reported as truncated.
    ghost not_truncated: { (e : ReadError) (bytes : List ℕ) → rejects e bytes → ¬ (IsFailed IsTruncated e) };

    // A value has only one encoding.
    ghost one: { (x y : Self) (a b : List ℕ) → same x y → is_form x a → is_form y b → a ≡ b };

    // No encoding is empty.
    ghost some: { (x : Self) (bytes : List ℕ) → is_form x bytes → 0 < length bytes };
}
