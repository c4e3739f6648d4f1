//! Hashing a content with SHA-256, and checking one.
ghost use Rattle.std.specs.Prelude.{◌≡◌, ◌≢◌, ◌↔◌, ◌≤◌, IsTrue, IsErr, IfOk, IfErr};
ghost use Rattle.multihash.specs.Multihash.{pair_of};
ghost use Rattle.examples.specs.Content.{content_pair};

use multihash::Multihash;
use sha2::{Digest, Sha256};
use std::fmt;

/// The multicodec code of SHA2-256.
pub const SHA2_256: u64 = 0x12;

/// Returns the content's multihash, whose digest has 32 bytes.
///
/// # Requires
///
/// The capacity `S` is at least 32.
pub fn hash_of<const S: usize>(content: &[u8]) -> Multihash<S>
    requires { 32 ≤ S }
    ensures { pair_of result ≡ content_pair content.now }
{
    let digest = Sha256::digest(content);
    Multihash::wrap(SHA2_256, &digest).unwrap()
}

/// The error of [`verify`]: the hash function is not known.
#[derive(Clone, Copy, Debug, PartialEq, Eq)]
pub struct UnknownCode {
    /// The multihash's code, which is not that of SHA2-256.
    pub code: u64,
}

impl fmt::Display for UnknownCode {
    ghost use Rattle.std.specs.Prelude.{◌++◌, Some, codes};
    ghost use Rattle.std.specs.Fmt.{decimal};

    ghost output = { λ e. Some (codes "no hash function is known for the code " ++ decimal e.code) };

    fn fmt<W: fmt::Write>(&self, f: &mut fmt::Formatter<W>) -> fmt::Result {
        write!(f, "no hash function is known for the code {}", self.code)
    }
}

impl std::error::Error for UnknownCode {}

/// Returns whether the multihash, of any capacity, is the content's.
///
/// # Errors
///
/// [`UnknownCode`] if the hash function is not SHA2-256.
pub fn verify<const S: usize>(multihash: &Multihash<S>, content: &[u8]) -> Result<bool, UnknownCode>
    ensures ok { IfOk result (λ is. IsTrue is ↔ (pair_of multihash.now ≡ content_pair content.now)) }
    ensures unknown { IsErr result ↔ ((pair_of multihash.now).code ≢ 0x12) }
    ensures code { IfErr result (λ e. e.code ≡ (pair_of multihash.now).code) }
{
    let code = multihash.code();
    if code != SHA2_256 {
        return Err(UnknownCode { code });
    }
    Ok(multihash.same_as(&hash_of::<32>(content)))
}

/// Returns whether the multihash is a SHA2-256 one of other content. For any other hash function it returns
/// false.
pub fn is_damaged<const S: usize>(multihash: &Multihash<S>, content: &[u8]) -> bool
    ensures { IsTrue result ↔ (((pair_of multihash.now).code ≡ 0x12)
        × (pair_of multihash.now ≢ content_pair content.now)) }
{
    matches!(verify(multihash, content), Ok(false))
}
