//! Callers that read a slice or write to one, and whose contracts state its bytes.
ghost use Rattle.std.specs.Prelude.{◌≡◌, ◌<◌, ◌≤◌, ◌↔◌, ℕ, List, ◌++◌, length, drop, Some};
ghost use Rattle.std.specs.Prelude.{◌-◌, IsOk, IfOk, IfErr, IfSome, IfNone, IsErrAnd, MatchOption};
ghost use Rattle.multihash.specs.Varint.{insufficient, IsVarint, IsInsufficient};
ghost use Rattle.multihash.specs.Pair.{digest_limit};
ghost use Rattle.multihash.specs.Encoding.{IsEncoding};
ghost use Rattle.multihash.specs.Verdict.{Verdict, BeginsWithSize, HasVerdict, IsIncomplete};
ghost use Rattle.multihash.specs.Refusal.{IsInvalidSize, IsFrontError, IsVarintError};
ghost use Rattle.multihash.specs.Consuming.{ConsumesAtError, ConsumesShortestSettling};
ghost use Rattle.multihash.specs.Outcome.{IsResultOf};
ghost use Rattle.multihash.specs.Multihash.{pair_of};

use multihash::no_std_io::SliceWriter;
use multihash::{Error, Multihash, varint};

/// Returns the result of `read` for a slice, and what it leaves. If the digest is too long for the capacity,
/// the error has its length, and the digest is left, so a caller can skip it. If the digest is truncated,
/// both varints are consumed, and an unspecified part of the digest.
pub fn read_slice<const S: usize>(stream: &[u8]) -> (Result<Multihash<S>, Error>, &[u8])
    ensures verdict { (v : Verdict) × HasVerdict S stream.now v × IsResultOf result.0 v }
    ensures ok { IfOk result.0 (λ m. (bytes : List ℕ) × IsEncoding (pair_of m) bytes
        × (stream.now ≡ bytes ++ result.1.now)) }
    ensures err { IfErr result.0 (λ e. ConsumesAtError S e (Some stream.now) (Some result.1.now)) }
    ensures settled { (v : Verdict) → HasVerdict S stream.now v → ¬ (IsIncomplete v) →
        ConsumesShortestSettling S stream.now (Some result.1.now) }
    ensures long { (size : ℕ) (rest : List ℕ) → BeginsWithSize size stream.now rest →
        digest_limit S < size →
        IsErrAnd result.0 (IsInvalidSize size) × (result.1.now ≡ rest) }
{
    let mut left = stream;
    let outcome = Multihash::read(&mut left);
    (outcome, left)
}

/// Returns the number at the front of a buffer, and what follows its varint, or `None` if more bytes have to be
/// appended first.
///
/// # Errors
///
/// The varint is malformed, whatever bytes are appended.
pub fn next_number(buffer: &[u8]) -> Result<Option<(u64, &[u8])>, Error>
    ensures some { IfOk result (λ next. IfSome next (λ found. (varint : List ℕ)
        × IsVarint found.0 varint × (buffer.now ≡ varint ++ found.1.now))) }
    ensures none { IfOk result (λ next. IfNone next (IsInsufficient buffer.now)) }
    ensures err { IfErr result (λ e. IsFrontError buffer.now e × ¬ (IsVarintError insufficient e)) }
{
    match varint::read_front(buffer) {
        Ok(found) => Ok(Some(found)),
        Err(e) if e.is_incomplete() => Ok(None),
        Err(e) => Err(e),
    }
}

/// Writes the encoding to the front of `buffer` and returns its length; none if it does not fit, and then the
/// bytes are unchanged.
pub fn encode_into<const S: usize>(m: &Multihash<S>, buffer: &mut [u8]) -> Option<usize>
    ensures { (bytes : List ℕ) × IsEncoding (pair_of m.now) bytes
        × MatchOption result ((length buffer.old < length bytes) × (buffer.new ≡ buffer.old))
        (λ n. (n ≡ length bytes) × (buffer.new ≡ bytes ++ drop n buffer.old)) }
{
    if m.encoded_len() > buffer.len() {
        return None;
    }
    let mut writer = SliceWriter::new(buffer);
    Some(m.write(&mut writer).unwrap())
}

/// Writes the encoding to the front of a plain slice, which a reference to it advances past. Returns its length and
/// what is left of the slice. It fits exactly if the slice has as many bytes.
pub fn write_to_slice<'a, const S: usize>(
    m: &Multihash<S>,
    buffer: &'a mut [u8],
) -> Result<(usize, &'a mut [u8]), Error>
    ensures { (bytes : List ℕ) × IsEncoding (pair_of m.now) bytes
        × (IsOk result ↔ (length bytes ≤ length buffer.old))
        × IfOk result (λ written. (written.0 ≡ length bytes)
        × (length written.1.now ≡ length buffer.old - length bytes)) }
{
    let mut left = buffer;
    let len = m.write(&mut left)?;
    Ok((len, left))
}
