//! Many multihashes in one stream, one after another.
ghost use Rattle.std.specs.Prelude.{◌≡◌, ◌⊎◌, ℕ, List, length, map, vec_capacity, All, IfOk, IfErr, OnOk, OnErr, IsOk};
ghost use Rattle.multihash.specs.Pair.{FitsBuffer};
ghost use Rattle.multihash.specs.Streams.{AreConcatenated, ConsumesPairs, StopsAfterPairs};
ghost use Rattle.multihash.specs.Writing.{AppendsPrefix, CountsWriterFailures};
ghost use Rattle.multihash.specs.Refusal.{IsOutOfMemory, IsIo, IsReaderError};
ghost use Rattle.multihash.specs.Reading.{CountsReaderFailures};
ghost use Rattle.multihash.specs.Consuming.{ReadMayFailWith};
ghost use Rattle.multihash.specs.Multihash.{pair_of};

use crate::no_std_io::{Read, Write};
use crate::{Error, Multihash};
use std::alloc::Global;

/// Appends the encodings of the items to `w`, in order. For an empty list the writer is not called.
///
/// # Errors
///
/// Those of [`Multihash::write`]. A strict prefix of the concatenated encodings has been appended then.
#[tactic(auto, using(crate::proofs::EncodingLemmas::all_fit))]
pub fn write_list<const S: usize, W: Write>(items: &[Multihash<S>], w: &mut W) -> Result<(), Error>
    ensures ok { OnOk result ((bytes : List ℕ) × AreConcatenated (map pair_of items.now) bytes
        × W.appended w.old bytes w.new) }
    ensures empty { length items.now ≡ 0 → IsOk result }
    ensures fit { All (FitsBuffer S) (map pair_of items.now) }
    ensures err { OnErr result ((bytes : List ℕ) × AreConcatenated (map pair_of items.now) bytes
        × AppendsPrefix W.appended w.old bytes w.new) }
    ensures any { OnErr result ((bytes : List ℕ) → AreConcatenated (map pair_of items.now) bytes →
        AppendsPrefix W.appended w.old bytes w.new) }
    ensures faults { CountsWriterFailures IsIo W.allocates
        (W.failures w.old) (W.failures w.new) (W.full w.new) result }
{
    for item in items {
        item.write(w)?;
    }
    Ok(())
}

/// Reads `count` multihashes, one after another, and leaves what follows them in `r` unread. For a
/// `count` of 0 nothing is read or allocated.
///
/// **Warning:** capacity for exactly `count` values is allocated before anything is read, however short
/// the input is. A `count` that comes from the input needs a limit.
///
/// # Errors
///
/// - [`Error::io`] if out of memory, always for a `count` too large to allocate; nothing was read.
/// - Otherwise the first error of [`Multihash::read`]; the encodings before it were consumed, and what
///   the failed call consumed. The values that were read are dropped.
pub fn read_list<const S: usize, R: Read>(
    alloc: Global,
    r: &mut R,
    count: usize,
) -> Result<Vec<Multihash<S>>, Error>
    ensures faults { CountsReaderFailures IsReaderError (λ e. ReadMayFailWith S e ⊎ IsOutOfMemory e)
        (R.failures r.old) (R.failures r.new) result }
    ensures none { count ≡ 0 → IsOk result }
    ensures capacity { IfOk result (λ list. vec_capacity list ≡ count) }
    ensures ok { IfOk result (λ list. (length list.items ≡ count)
        × ConsumesPairs S (map pair_of list.items) (R.rest r.old) (R.rest r.new)) }
    ensures err { IfErr result (λ e.
        (IsOutOfMemory e × (R.failures r.new ≡ R.failures r.old) × (R.rest r.new ≡ R.rest r.old))
        ⊎ StopsAfterPairs S count e (R.failures r.old) (R.failures r.new)
        (R.rest r.old) (R.rest r.new)) }
{
    let mut list = Vec::with_capacity(alloc, count)?;
    for _ in 0..count {
        list.push_reserved(Multihash::read(r)?);
    }
    Ok(list)
}
