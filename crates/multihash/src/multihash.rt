//! The type: its fields, their limits, and the functions that make a value or return a part of it.
ghost use Rattle.std.specs.Prelude.{◌≡◌, ◌<◌, ◌≤◌, ◌-◌, ◌+◌, ◌⊎◌, ◌↔◌, [], ◌++◌, length, take, replicate, IfOk, IfErr, IsErr, IsTrue, false};
ghost use Rattle.multihash.specs.Bytes.{IsBytes};
ghost use Rattle.multihash.specs.Varint.{varint_limit};
ghost use Rattle.multihash.specs.Pair.{IsPair, digest_limit, truncated, FitsBuffer};
ghost use Rattle.multihash.specs.Refusal.{IsInvalidSize, IsInvalidCode};
ghost use Rattle.multihash.specs.Multihash.{pair_of};

use crate::{Error, varint};
use std::fmt;
use std::marker::Model;

/// A code below 2^63 and a digest of at most `min(S, 255)` bytes, in a buffer of the capacity `S`.
///
/// ```
/// use multihash::Multihash;
///
/// const SHA3_256: u64 = 0x16;
/// let digest = [7; 32];
/// let multihash = Multihash::<64>::wrap(SHA3_256, &digest)?;
/// assert!(multihash.code() == SHA3_256 && multihash.size() == 32);
/// ```
#[derive(Clone, Copy)]
pub struct Multihash<const S: usize> {
    // First, so that in a `Result` no part of it straddles two words.
    pub(crate) digest: [u8; S],
    pub(crate) code: u64,
    // A machine word, so that no padding after the digest is copied.
    pub(crate) size: usize,
    // Invariants of the fields, which contracts know of every value.
    ghost in_range: { code < varint_limit },
    ghost fits: { size ≤ digest_limit S },
}

impl<const S: usize> Model for Multihash<S> {
    ghost use Rattle.multihash.specs.Multihash.{Fields};

    ghost Value = { Fields S };

    ghost view = { λ m. record {
      code = m.code;
      size = m.size;
      buffer = m.digest;
      in_range = m.in_range;
      fits = m.fits;
    } };

    ghost inverse = { λ fields. record {
      code = fields.code;
      size = fields.size;
      digest = fields.buffer;
      in_range = fields.in_range;
      fits = fields.fits;
    } };
}

impl<const S: usize> Multihash<S> {
    /// Returns the multihash of a code and a digest.
    ///
    /// # Errors
    ///
    /// - [`Error::invalid_size`] with the digest's length if it exceeds `min(S, 255)`.
    /// - Otherwise [`Error::invalid_code`] with the code if it is 2^63 or more.
    pub fn wrap(code: u64, digest: &[u8]) -> Result<Self, Error>
        ensures ok { IfOk result (λ m.
            pair_of m ≡ record { code = code; digest = digest.now }) }
        ensures exactly { IsErr result ↔
            ((digest_limit S < length digest.now) ⊎ (varint_limit ≤ code)) }
        ensures err { IfErr result (λ e.
            (IsInvalidSize (length digest.now) e × (digest_limit S < length digest.now))
            ⊎ (IsInvalidCode code e × (length digest.now ≤ digest_limit S)
            × (varint_limit ≤ code))) }
    {
        let len = digest.len();
        if !Self::is_valid_size(len as u64) {
            return Err(Error::from_size(len as u64));
        }
        if code > varint::MAX {
            return Err(Error::from_code(code));
        }
        Ok(Self::of_digest(code, digest))
    }

    /// Returns the code, which names the hash function: less than 2^63.
    pub fn code(&self) -> u64
        ensures code { result ≡ (pair_of self.now).code }
        ensures in_range { result < varint_limit }
    {
        self.code
    }

    /// Returns the digest's length in bytes, at most `min(S, 255)`.
    pub fn size(&self) -> u8
        ensures size { result ≡ length (pair_of self.now).digest }
        ensures fits { result ≤ digest_limit S }
    {
        self.size as u8
    }

    /// Returns the bytes of the digest.
    pub fn digest(&self) -> &[u8]
        ensures digest { result.now ≡ (pair_of self.now).digest }
        ensures fits { FitsBuffer S (pair_of self.now) }
        ensures pair { IsPair (pair_of self.now) }
    {
        prefix(&self.digest, self.size)
    }

    /// Returns the same code with the first `size` bytes of the digest, or with all of it if it is
    /// shorter.
    ///
    /// The caller must decide whether the shorter digest is still secure.
    pub fn truncate(&self, size: u8) -> Self
        ensures { pair_of result ≡ truncated size (pair_of self.now) }
    {
        // Copied as one value: a literal of its fields would copy the digest by way of the stack.
        let mut truncated = *self;
        truncated.size = self.size.min(usize::from(size));
        truncated
    }

    /// Returns the same code and digest in a buffer of the capacity `R`.
    ///
    /// # Errors
    ///
    /// [`Error::invalid_size`] with the digest's length if it exceeds `R`.
    pub fn resize<const R: usize>(&self) -> Result<Multihash<R>, Error>
        ensures ok { IfOk result (λ m. pair_of m ≡ pair_of self.now) }
        ensures exactly { IsErr result ↔ (R < length (pair_of self.now).digest) }
        ensures err { IfErr result (IsInvalidSize (length (pair_of self.now).digest)) }
    {
        if self.size > R {
            return Err(Error::from_size(self.size as u64));
        }
        Ok(Multihash::of_digest(self.code, self.digest()))
    }

    /// Returns the code, the digest padded with zeros to `S` bytes, and the digest's length in bytes.
    pub fn into_inner(self) -> (u64, [u8; S], u8)
        ensures code { result.0 ≡ (pair_of self.entry).code }
        ensures array { result.1 ≡ (pair_of self.entry).digest
            ++ replicate (S - length (pair_of self.entry).digest) 0 }
        ensures size { result.2 ≡ length (pair_of self.entry).digest }
    {
        (self.code, Self::array_of(self.digest()), self.size())
    }

    // Whether a digest of that many bytes fits the buffer.
    #[inline(always)]
    pub(crate) fn is_valid_size(size: u64) -> bool
        ensures fits { IsTrue result → size ≤ digest_limit S }
        ensures over { result ≡ false → digest_limit S < size }
    {
        size <= S as u64 && size <= 255
    }

    // The multihash of a code and a digest that fit.
    #[inline(always)]
    pub(crate) fn of_digest(code: u64, digest: &[u8]) -> Self
        requires in_range { code < varint_limit }
        requires fits { length digest.now ≤ digest_limit S }
        ensures { pair_of result ≡ record { code = code; digest = digest.now } }
    {
        Self::in_buffer(code, digest.len(), Self::array_of(digest))
    }

    // The multihash of a buffer whose first bytes are the digest.
    #[inline(always)]
    pub(crate) fn in_buffer(code: u64, size: usize, buffer: [u8; S]) -> Self
        requires in_range { code < varint_limit }
        requires fits { size ≤ digest_limit S }
        ensures { pair_of result ≡ record { code = code; digest = take size buffer.entry } }
    {
        Multihash {
            code,
            digest: buffer,
            size,
        }
    }

    // The digest followed by zeros.
    #[inline(always)]
    #[tactic(auto, using(crate::proofs::EncodingLemmas::zeros_after))]
    fn array_of(digest: &[u8]) -> [u8; S]
        requires { length digest.now ≤ S }
        ensures { result ≡ digest.now ++ replicate (S - length digest.now) 0 }
    {
        let mut array = [0; S];
        array[..digest.len()].copy_from_slice(digest);
        array
    }
}

/// Prints the code, the size and the digest, and no byte after the digest.
impl<const S: usize> fmt::Debug for Multihash<S> {
    fn fmt<W: fmt::Write>(&self, f: &mut fmt::Formatter<W>) -> fmt::Result {
        f.debug_struct("Multihash")
            .field("code", &self.code())
            .field("size", &self.size())
            .field("digest", &self.digest())
            .finish()
    }
}

/// The code 0 and the empty digest.
impl<const S: usize> Default for Multihash<S> {
    ghost is_default = { λ m. pair_of m ≡ record { code = 0; digest = [] } };

    fn default() -> Self {
        Multihash {
            code: 0,
            size: 0,
            digest: [0; S],
        }
    }
}

// The first `len` bytes. A slice that is passed in is known to hold bytes.
#[inline(always)]
fn prefix(bytes: &[u8], len: usize) -> &[u8]
    requires { len ≤ length bytes.now }
    ensures prefix { result.now ≡ take len bytes.now }
    ensures bytes { IsBytes result.now }
{
    &bytes[..len]
}
