//! The binary encoding: the varint of the code, the varint of the digest's length, and the digest.
ghost use Rattle.std.specs.Prelude.{◌≡◌, ◌<◌, ◌≤◌, ◌+◌, ◌-◌, ◌⊎◌, ℕ, List, length, Some, IfSome, IfOk, IfErr, OnOk, OnErr, take};
ghost use Rattle.std.specs.Io.KnownBytes.{prepend_known};
ghost use Rattle.multihash.specs.Varint.{varint_limit, max_continuation, IsVarint};
ghost use Rattle.multihash.specs.Pair.{digest_limit, FitsBuffer};
ghost use Rattle.multihash.specs.Encoding.{IsEncoding};
ghost use Rattle.multihash.specs.Verdict.{Verdict, HasVerdict, IsIncomplete, HasWholeVerdict};
ghost use Rattle.multihash.specs.Refusal.{IsOutOfMemory, IsIo, IsReaderError};
ghost use Rattle.multihash.specs.Reading.{Consumes, EndsInNone, CountsReaderFailures, HasFewerThan, ConsumesFewerThan};
ghost use Rattle.multihash.specs.Fault.{IsUnexpectedEof, IsOwnFault};
ghost use Rattle.multihash.specs.Writing.{AppendsPrefix, CountsWriterFailures};
ghost use Rattle.multihash.specs.Consuming.{ReadMayFailWith, ConsumesAtError, ConsumesShortestSettling, ConsumesNothingSettling, none_is_insufficient, ReadMeets};
ghost use Rattle.multihash.specs.Outcome.{IsResultOf};
ghost use Rattle.multihash.specs.Multihash.{pair_of};

use crate::no_std_io::{self, Read, Write};
use crate::{Error, Head, Multihash, varint};
use std::alloc::Global;

impl<const S: usize> Multihash<S> {
    /// Reads the multihash whose encoding comes next. It consumes exactly that encoding and leaves what
    /// follows in `r` unread. Within a varint it reads one byte at a time, and it checks the size
    /// before it reads the digest.
    ///
    /// # Errors
    ///
    /// - [`Error::is_insufficient`] if the input ends before or inside a varint; all of it was
    ///   consumed.
    /// - [`Error::is_overflow`] if a varint has more than nine bytes, as every number of 2^63 or more
    ///   needs, and [`Error::is_not_minimal`] if a varint of more than one byte ends in a zero byte; the
    ///   last byte consumed is the one that determines the error.
    /// - [`Error::invalid_size`] with the digest's length if it exceeds `min(S, 255)`; both varints
    ///   were consumed, and none of the digest.
    /// - [`Error::io`] with an unexpected end of file if the input ends within the digest; both varints
    ///   were consumed. How much of the digest was consumed depends on the reader's `read_exact`.
    /// - [`Error::io`] with the reader's own error if it failed; what was consumed is by itself a
    ///   truncated input.
    #[inline(always)]
    pub fn read<R: Read>(r: &mut R) -> Result<Self, Error>
        ensures faults { CountsReaderFailures IsReaderError (ReadMayFailWith S)
            (R.failures r.old) (R.failures r.new) result }
        ensures verdict { IfSome (R.rest r.old) (λ rest. R.failures r.new ≡ R.failures r.old →
            (v : Verdict) × HasVerdict S rest v × IsResultOf result v) }
        ensures ok { IfOk result (λ m. (bytes : List ℕ) × IsEncoding (pair_of m) bytes
            × Consumes (R.rest r.old) bytes (R.rest r.new)) }
        ensures fits { IfOk result (λ m. FitsBuffer S (pair_of m)) }
        ensures err { IfErr result (λ e. ConsumesAtError S e (R.rest r.old) (R.rest r.new)) }

        // If the verdict is not incomplete, exactly the shortest prefix that settles it was consumed;
        // if it is, or the reader failed, no prefix of what was consumed settles a verdict.
        ensures settled { IfSome (R.rest r.old) (λ rest. R.failures r.new ≡ R.failures r.old →
            (v : Verdict) → HasVerdict S rest v → ¬ (IsIncomplete v) →
            ConsumesShortestSettling S rest (R.rest r.new)) }
        ensures unsettled { IfSome (R.rest r.old) (λ rest.
            (R.failures r.old < R.failures r.new)
            ⊎ ((v : Verdict) × HasVerdict S rest v × IsIncomplete v) →
            ConsumesNothingSettling S rest (R.rest r.new)) }
    {
        let code = varint::read(r)?;
        Self::read_after(r, code)
    }

    /// Reads the multihash whose encoding comes next, as [`Multihash::read`] does, but returns `None`
    /// at the end of the input, where the reader's first `read` returns 0: for a loop over a stream.
    ///
    /// # Errors
    ///
    /// Those of [`Multihash::read`], except that of an input which ends before the encoding.
    #[inline(always)]
    pub fn read_next<R: Read>(r: &mut R) -> Result<Option<Self>, Error>
        ensures read { ReadMeets S (R.rest r.old) (R.rest r.new) (R.failures r.old) (R.failures r.new)
            (none_is_insufficient result) }
        ensures end { EndsInNone (R.rest r.old) (R.rest r.new) (R.failures r.old) (R.failures r.new) result }
    {
        match varint::read_next(r)? {
            Some(code) => Ok(Some(Self::read_after(r, code)?)),
            None => Ok(None),
        }
    }

    // Reads the rest of an encoding whose code was read, as `read` does.
    #[inline(always)]
    fn read_after<R: Read>(r: &mut R, code: u64) -> Result<Self, Error>
        requires { code < varint_limit }
        ensures { (bytes : List ℕ) → IsVarint code bytes →
            ReadMeets S (prepend_known bytes (R.rest r.old)) (R.rest r.new)
            (R.failures r.old) (R.failures r.new) result }
    {
        let len = varint::read(r)?;
        if !Self::is_valid_size(len) {
            return Err(Error::from_size(len));
        }
        let size = len as u8;
        let mut digest = [0; S];
        Self::read_digest(r, size, &mut digest)?;
        Ok(Self::in_buffer(code, usize::from(size), digest))
    }

    /// Reads the multihash whose encoding is the whole of `bytes`: the varint of the code, the varint
    /// of the digest's length, and the digest.
    ///
    /// # Errors
    ///
    /// - [`Error::is_insufficient`] if the bytes end before or inside a varint.
    /// - [`Error::is_overflow`] if a varint has more than nine bytes, as every number of 2^63 or more
    ///   needs.
    /// - [`Error::is_not_minimal`] if a varint of more than one byte ends in a zero byte.
    /// - [`Error::invalid_size`] with the digest's length if it exceeds `min(S, 255)`, and with the
    ///   number of trailing bytes if some follow the digest.
    /// - [`Error::io`] with an unexpected end of file if the bytes end within the digest.
    pub fn from_bytes(bytes: &[u8]) -> Result<Self, Error>
        ensures { (v : Verdict) × HasWholeVerdict S bytes.now v × IsResultOf result v }
    {
        let head = Head::read_front(bytes)?;
        if !Self::is_valid_size(head.digest_len) {
            return Err(Error::from_size(head.digest_len));
        }
        let code = head.code;
        let len = head.digest_len as usize;
        let digest = &bytes[head.digest_offset..];
        if digest.len() < len {
            return Err(Error::from(no_std_io::Error::unexpected_eof()));
        }
        if digest.len() > len {
            return Err(Error::from_size((digest.len() - len) as u64));
        }
        Ok(Self::of_digest(code, digest))
    }

    /// Appends the encoding to `w`: the varint of the code, the varint of the digest's length, and the
    /// digest, each by one call of `write_all`. Returns the number of bytes.
    ///
    /// # Errors
    ///
    /// [`Error::io`] with the writer's error: it is full, it failed, or, if it allocates, it is out of
    /// memory. A strict prefix of the encoding has been appended then.
    #[inline(always)]
    pub fn write<W: Write>(&self, w: &mut W) -> Result<usize, Error>
        ensures fits { FitsBuffer S (pair_of self.now) }
        ensures ok { IfOk result (λ n. (bytes : List ℕ) × IsEncoding (pair_of self.now) bytes
            × (n ≡ length bytes) × W.appended w.old bytes w.new) }
        ensures err { OnErr result ((bytes : List ℕ) × IsEncoding (pair_of self.now) bytes
            × AppendsPrefix W.appended w.old bytes w.new) }
        ensures faults { CountsWriterFailures IsIo W.allocates
            (W.failures w.old) (W.failures w.new) (W.full w.new) result }
    {
        let digest = self.digest();
        let code = varint::write_in_range(self.code(), w)?;
        let size = varint::write_in_range(u64::from(self.size()), w)?;
        w.write_all(digest)?;
        Ok(code + size + digest.len())
    }

    /// Returns the length of the encoding in bytes, at most 266.
    pub fn encoded_len(&self) -> usize
        ensures encoding { (bytes : List ℕ) × IsEncoding (pair_of self.now) bytes
            × (result ≡ length bytes) }
        ensures short { result ≤ (max_continuation + 1) + 2 + 255 }
    {
        let code = varint::len_in_range(self.code());
        let size = varint::len_in_range(u64::from(self.size()));
        code + size + usize::from(self.size())
    }

    /// Returns the encoding, in a vector made by one allocation of exactly its length.
    ///
    /// # Errors
    ///
    /// [`Error::io`] if out of memory.
    pub fn to_bytes(&self, alloc: Global) -> Result<Vec<u8>, Error>
        ensures ok { IfOk result (λ v. IsEncoding (pair_of self.now) v.items) }
        ensures memory { IfErr result IsOutOfMemory }
    {
        let mut bytes = Vec::with_capacity(alloc, self.encoded_len())?;
        self.write(&mut bytes)?;
        Ok(bytes)
    }

    // Reads a digest of that size into the front of the buffer.
    #[inline(always)]
    pub(crate) fn read_digest<R: Read>(
        r: &mut R,
        size: u8,
        buffer: &mut [u8; S],
    ) -> Result<(), no_std_io::Error>
        requires { size ≤ digest_limit S }
        ensures ok { OnOk result (Consumes (R.rest r.old) (take size buffer.new) (R.rest r.new)) }
        ensures full { length buffer.new ≡ S }
        ensures faults { CountsReaderFailures IsOwnFault IsUnexpectedEof
            (R.failures r.old) (R.failures r.new) result }
        ensures eof { IfErr result (λ e. IsUnexpectedEof e → HasFewerThan size (R.rest r.old)) }
        ensures err { OnErr result (ConsumesFewerThan size (R.rest r.old) (R.rest r.new)) }
    {
        r.read_exact(&mut buffer[..usize::from(size)])
    }
}
