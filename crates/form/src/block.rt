//! A block of bytes with its length before it.
ghost use Rattle.std.specs.Prelude.{◌≡◌, ◌<◌, ◌≤◌, ◌⊎◌, ◌↔◌, ℕ, length, vec_len, IfOk, IfErr, IsErr};
ghost use Rattle.multihash.specs.Varint.{varint_limit};
ghost use Rattle.multihash.specs.Reading.{Consumes, CountsReaderFailures};
ghost use Rattle.multihash.specs.Consuming.{ExactFails};
ghost use Rattle.multihash.specs.Refusal.{IsEof, IsOutOfMemory, IsReaderError};
ghost use Rattle.form.specs.FormError.{IsFailed};
ghost use Rattle.form.specs.declared.error.FormError.TheVariants.{TooLong};

use crate::{Form, FormError};
use multihash::no_std_io::{Read, Write};
use multihash::varint;
use std::alloc::Global;

// The most bytes that are read at once.
const CHUNK: usize = 256;

/// At most `MAX` bytes. The encoding is the varint of their number, and the bytes.
///
/// `read` returns the errors of [`varint::read`], [`FormError::TooLong`] with the length if that is above `MAX`, an
/// unexpected end within the block, and out of memory. Memory grows with the bytes that arrive: a length that is only
/// claimed allocates 256 bytes at most.
#[derive(Debug, Drop)]
pub struct Block<const MAX: usize> {
    /// The bytes.
    pub bytes: Vec<u8>,
    pub ghost within: { vec_len bytes ≤ MAX },
    pub ghost in_range: { vec_len bytes < varint_limit },
}

impl<const MAX: usize> Block<MAX> {
    /// Returns the value of these bytes.
    ///
    /// # Errors
    ///
    /// [`FormError::TooLong`] if there are more than `MAX` bytes.
    pub fn new(bytes: Vec<u8>) -> Result<Self, FormError>
        ensures ok { IfOk result (λ x. x.bytes.items ≡ bytes.items) }
        ensures exactly { IsErr result ↔ (MAX < vec_len bytes) }
        ensures err { IfErr result (λ e. e ≡ TooLong (vec_len bytes)) }
    {
        if bytes.len() > MAX {
            return Err(FormError::TooLong(bytes.len() as u64));
        }
        Ok(Block { bytes })
    }
}

impl<const MAX: usize> Form for Block<MAX> {
    ghost use Rattle.multihash.specs.Refusal.{IsAnyVarintError};
    ghost use Rattle.form.specs.Form.{IsBlock};
    ghost use Rattle.form.specs.Rejecting.{RejectsNumberThen, RejectsTooLong};
    ghost use Rattle.form.specs.Lemmas.Parts.{block_exists, block_unique, block_one, block_some};
    ghost use Rattle.form.specs.Lemmas.Rejected.{block_not_both, block_rejects_unique, from_some, block_not_truncated};

    ghost is_form = { λ x. IsBlock x.bytes.items };

    ghost same = { λ x y. x.bytes.items ≡ y.bytes.items };

    ghost rejects_with = { λ e. IsFailed (λ r. IsAnyVarintError r ⊎ IsEof r ⊎ IsOutOfMemory r) e
        ⊎ ((n : ℕ) × (e ≡ TooLong n) × (MAX < n)) };

    ghost rejects = { RejectsNumberThen (RejectsTooLong MAX) };

    fn write<W: Write>(&self, w: &mut W) -> Result<(), FormError> {
        varint::write(self.bytes.len() as u64, w)?;
        w.write_all(&self.bytes)?;
        Ok(())
    }

    fn read<R: Read>(alloc: Global, r: &mut R) -> Result<Self, FormError> {
        let len = varint::read(r)?;
        if len > MAX as u64 {
            return Err(FormError::TooLong(len));
        }
        let bytes = read_bytes(alloc, r, len as usize)?;
        Ok(Block { bytes })
    }

    ghost exists = { λ x. block_exists x.bytes.items (vec_len x.bytes) x.bytes.ok.0 x.in_range };

    ghost unique = { λ x y. block_unique x.bytes.items y.bytes.items };

    ghost not_both = { λ x. block_not_both MAX (vec_len x.bytes) x.bytes.items x.bytes.ok.0 x.within };

    ghost rejects_unique = { block_rejects_unique MAX };

    ghost rejects_some = { λ e. from_some e };

    ghost not_truncated = { block_not_truncated MAX };

    ghost one = { λ x y. block_one x.bytes.items y.bytes.items };

    ghost some = { λ x. block_some x.bytes.items };
}

// Reads that many bytes.
fn read_bytes<R: Read>(alloc: Global, r: &mut R, len: usize) -> Result<Vec<u8>, FormError>
    ensures ok { IfOk result (λ bytes. (length bytes.items ≡ len)
        × Consumes (R.rest r.old) bytes.items (R.rest r.new)) }
    ensures faults { CountsReaderFailures (IsFailed IsReaderError) (IsFailed (λ e. IsEof e ⊎ IsOutOfMemory e))
        (R.failures r.old) (R.failures r.new) result }
    ensures err { IfErr result (λ e. IsFailed IsOutOfMemory e
        ⊎ IsFailed (λ cause. ExactFails len (R.failures r.old) (R.failures r.new) cause (R.rest r.old) (R.rest r.new)) e) }
{
    let mut bytes = Vec::new(alloc);
    let mut chunk = [0; CHUNK];
    while bytes.len() < len {
        let more = (len - bytes.len()).min(CHUNK);
        bytes.reserve(more)?;
        r.read_exact(&mut chunk[..more])?;
        bytes.write_all(&chunk[..more]).unwrap();
    }
    Ok(bytes)
}
