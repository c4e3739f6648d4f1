//! The main theorems, as the contracts of four functions. Each function returns its result, so a body that
//! does no work fails the contracts of the first three. No contract can state that an allocation succeeds. So
//! `list_through` may return out of memory in place of reading the list back, and in place of writing it if
//! the writer allocates. To any other writer it writes the whole list, unless the writer fails or is full.
//!
//! The clauses see a reader by the ghost members `rest` and `failures` of `Read`, and a writer by `appended`,
//! `full`, `failures` and `allocates` of `Write`. `crates/multihash/src/no_std_io/traits.rt` says what they
//! are, and states the laws of every reader and writer: `ReadLaws`, `ReadExactLaws`, `WriteLaws`,
//! `WriteAllLaws`, `appends_nothing` and `appends_concatenated`.
//!
//! The clauses need these definitions, and words of Rattle's `std`. Each definition is made of those before it.
//! Each line names a module of `crates/multihash/specs`, and its definitions. `Results` is in
//! `crates/theorems/specs`.
//!
//! - `Bytes`: `ExactlyOne`, `IsBytes`, `IsPrefix`, `IsStrictPrefix`, `place_value`
//! - `Varint`: `varint_limit`, `max_continuation`, `last_byte_limit`, `IsContinuation`, `continuation_bytes`,
//!   `IsVarint`, `VarintError`, `IsInsufficient`, `IsOverflow`, `IsNotMinimal`, `BeginsMalformed`
//! - `Pair`: `Pair`, `digest_limit`, `FitsBuffer`
//! - `Encoding`: `IsEncoding`
//! - `Verdict`: `Verdict`, `BeginsWith`, `BeginsWithSize`, `BeginsWithCode`, `HasVerdict`, `HasTrailing`,
//!   `HasWholeVerdict`
//! - `Settling`: `Settles`, `IsShortestSettling`
//! - `Streams`: `AreParts`, `AreConcatenated`
//! - `Multihash`: `Fields`, `pair_of`
//! - `Fault`: `Fault`
//! - `Refusal`: `Refusal`
//! - `Results`: `verdict_of`, `IsOwnError`, `IsWriterError`
#![tactic(auto)]

ghost use Rattle.std.specs.Prelude.{◌≡◌, ◌≢◌, ◌<◌, ◌⊎◌, ◌↔◌, ℕ, List, [], ◌++◌, map, All, Some, IfSome, IsOkAnd, IsErrAnd, IsTrue, MatchResult};
ghost use Rattle.multihash.specs.Bytes.{ExactlyOne, IsPrefix, IsStrictPrefix};
ghost use Rattle.multihash.specs.Varint.{insufficient};
ghost use Rattle.multihash.specs.Pair.{Pair, FitsBuffer};
ghost use Rattle.multihash.specs.Encoding.{IsEncoding};
ghost use Rattle.multihash.specs.Verdict.{Verdict, malformed, unexpected_eof, BeginsWith, HasVerdict, HasWholeVerdict};
ghost use Rattle.multihash.specs.Settling.{Settles, IsShortestSettling};
ghost use Rattle.multihash.specs.Streams.{AreConcatenated};
ghost use Rattle.multihash.specs.Multihash.{pair_of};
ghost use Rattle.multihash.specs.Fault.{OutOfMemory};
ghost use Rattle.multihash.specs.Refusal.{of_io};
ghost use Rattle.theorems.specs.Results.{verdict_of, IsOwnError, IsWriterError};

use multihash::no_std_io::{Read, Write};
use multihash::{Error, Multihash, laws, list};
use std::alloc::Global;

/// Reads the multihash that the whole of `bytes` encodes. Each byte string has one result for each capacity:
/// the multihash that it encodes, or one error.
pub fn verdict<const S: usize>(bytes: &[u8]) -> Result<Multihash<S>, Error>
    // The grammar assigns exactly one verdict to the bytes, and it is the result.
    ensures one { (one : ExactlyOne (HasWholeVerdict S bytes.now))
        × (verdict_of result ≡ Some one.value) }

    // The result is a pair exactly if the bytes are its encoding and its digest fits the capacity.
    ensures canonical { (p : Pair) →
        (IsEncoding p bytes.now × FitsBuffer S p) ↔ IsOkAnd result (λ m. pair_of m ≡ p) }
{
    laws::one_verdict();
    Multihash::from_bytes(bytes)
}

/// Reads the multihash that comes next in a reader. `read` stops at the byte that decides the result. The
/// clauses say what was read and what is left if the reader's input is known (`rest`), as it is for a slice.
pub fn read_verdict<const S: usize, R: Read>(r: &mut R) -> Result<Multihash<S>, Error>
    // Either the reader failed, and the result is an error that a reader itself returns; or it did not fail,
    // the grammar assigns exactly one verdict to the rest, and that is the result.
    ensures one { ((R.failures r.old < R.failures r.new) × IsErrAnd result IsOwnError)
        ⊎ ((R.failures r.new ≡ R.failures r.old) × IfSome (R.rest r.old)
        (λ rest. (one : ExactlyOne (HasVerdict S rest)) × (verdict_of result ≡ Some one.value))) }

    // If the reader did not fail, the result is a pair exactly if an encoding of it that fits is at the front
    // of the rest.
    ensures canonical { IfSome (R.rest r.old) (λ rest. R.failures r.new ≡ R.failures r.old →
        (p : Pair) → ((left : List ℕ) × BeginsWith p rest left × FitsBuffer S p)
        ↔ IsOkAnd result (λ m. pair_of m ≡ p)) }

    // If it did not fail, and the rest is not truncated, then the rest has exactly one shortest prefix that
    // settles the verdict, and exactly that was consumed.
    ensures settled { IfSome (R.rest r.old) (λ rest. R.failures r.new ≡ R.failures r.old →
        (v : Verdict) → HasVerdict S rest v → v ≢ malformed insufficient → v ≢ unexpected_eof →
        (front : ExactlyOne (IsShortestSettling S rest)) × ((left : List ℕ)
        × (R.rest r.new ≡ Some left) × (rest ≡ front.value ++ left))) }

    // If the rest is truncated, or the reader failed, no prefix of what was consumed settles a verdict.
    ensures unsettled { IfSome (R.rest r.old) (λ rest. (R.failures r.old < R.failures r.new)
        ⊎ HasVerdict S rest (malformed insufficient) ⊎ HasVerdict S rest unexpected_eof →
        (consumed left : List ℕ) × (R.rest r.new ≡ Some left) × (rest ≡ consumed ++ left)
        × ((front : List ℕ) → IsPrefix front consumed → ¬ (Settles S front))) }

    // If the rest ends before or within a varint, all of it was consumed; if it ends within the digest, at least
    // both varints were, since what was consumed has that verdict by itself.
    ensures ended { IfSome (R.rest r.old) (λ rest. R.failures r.new ≡ R.failures r.old →
        (HasVerdict S rest (malformed insufficient) → R.rest r.new ≡ Some [])
        × (HasVerdict S rest unexpected_eof → (consumed left : List ℕ) × (R.rest r.new ≡ Some left)
        × (rest ≡ consumed ++ left) × HasVerdict S consumed unexpected_eof)) }

    // If the rest is truncated, no prefix of it settles a verdict, whatever was consumed.
    ensures truncated { IfSome (R.rest r.old) (λ rest. HasVerdict S rest (malformed insufficient)
        ⊎ HasVerdict S rest unexpected_eof →
        (front : List ℕ) → IsPrefix front rest → ¬ (Settles S front)) }
{
    laws::one_verdict();
    laws::settles();
    Multihash::read(r)
}

/// Returns whether two multihashes are the same, whatever the capacities of their buffers: exactly if their
/// encodings are equal.
pub fn same<const A: usize, const B: usize>(a: &Multihash<A>, b: &Multihash<B>) -> bool
    // Each has exactly one encoding.
    ensures first { ExactlyOne (IsEncoding (pair_of a.now)) }
    ensures second { ExactlyOne (IsEncoding (pair_of b.now)) }

    // They are the same exactly if their codes and digests are equal.
    ensures same { IsTrue result ↔ (pair_of a.now ≡ pair_of b.now) }

    // They are the same exactly if their encodings are equal.
    ensures alike { (x y : List ℕ) → IsEncoding (pair_of a.now) x → IsEncoding (pair_of b.now) y →
        (IsTrue result ↔ (x ≡ y)) }

    // No encoding is a prefix of another: if one is, they are the same.
    ensures begins { (x y : List ℕ) → IsEncoding (pair_of a.now) x → IsEncoding (pair_of b.now) y →
        IsPrefix x y ⊎ IsPrefix y x → IsTrue result }
{
    laws::prefix_free();
    a.same_as(b)
}

/// Writes a list to any writer, and reads it back from any reader, into values of the same capacity or of
/// another. What was written is read back, if the reader's input is that and the digests fit. Nothing is stated of
/// another input, or of digests that do not fit: the contract of `read_list` states what is returned then.
pub fn list_through<const S: usize, const T: usize, W: Write, R: Read>(
    alloc: Global,
    items: &[Multihash<S>],
    w: &mut W,
    r: &mut R,
) -> Result<Vec<Multihash<T>>, Error>
    // The encodings of the items were appended, in order, or, at an error of the writer, a strict prefix of
    // them.
    ensures written { (bytes : List ℕ) × AreConcatenated (map pair_of items.now) bytes
        × (W.appended w.old bytes w.new
        ⊎ (IsErrAnd result
        (IsWriterError W.allocates (W.failures w.old) (W.failures w.new) (W.full w.new))
        × ((part : List ℕ) × IsStrictPrefix part bytes × W.appended w.old part w.new))) }

    // If the reader's input is the encodings and then `more`, and the digests fit the new capacity, then the
    // same pairs are read in order and `more` is left, or the error is out of memory, one of the writer, or
    // one of the reader itself.
    ensures back { (more : List ℕ) →
        ((bytes : List ℕ) → AreConcatenated (map pair_of items.now) bytes →
        R.rest r.old ≡ Some (bytes ++ more)) →
        All (FitsBuffer T) (map pair_of items.now) →
        MatchResult result (λ list. (map pair_of list.items ≡ map pair_of items.now)
        × (R.rest r.new ≡ Some more))
        (λ e. (e ≡ of_io OutOfMemory)
        ⊎ IsWriterError W.allocates (W.failures w.old) (W.failures w.new) (W.full w.new) e
        ⊎ ((R.failures r.old < R.failures r.new) × IsOwnError e)) }
{
    list::write_list(items, w)?;
    list::read_list(alloc, r, items.len())
}
