//! Peer identifiers: the multihashes that libp2p allows, and their bytes.
ghost use Rattle.std.specs.Prelude.{◌≡◌, ◌↔◌, ℕ, List, IsTrue, Some, IfOk, IfErr, IsOkAnd};
ghost use Rattle.multihash.specs.Pair.{Pair};
ghost use Rattle.multihash.specs.Encoding.{IsEncoding};
ghost use Rattle.multihash.specs.Multihash.{pair_of};
ghost use Rattle.examples.specs.PeerId.{IsPeer, PeerFails, peer_error_text};
ghost use Rattle.examples.specs.declared.peer_id.PeerError.{PeerError};
ghost use Rattle.examples.specs.declared.peer_id.PeerError.TheVariants.{Malformed};

use multihash::{Error, Head, Multihash};
use std::fmt;

/// The error of reading a peer identifier.
#[derive(Debug, Drop)]
pub enum PeerError {
    /// One of the two varints is malformed.
    Malformed(Error),
    /// The code and the size are neither identity with at most 42 bytes nor SHA2-256 with 32.
    NotAllowed { code: u64, size: u64 },
    /// The size is allowed, but another number of bytes follows it.
    OtherLength(usize),
}

impl fmt::Display for PeerError {
    ghost output = { λ e. Some (peer_error_text e) };

    fn fmt<W: fmt::Write>(&self, f: &mut fmt::Formatter<W>) -> fmt::Result {
        match self {
            PeerError::Malformed(e) => fmt::Display::fmt(e, f),
            PeerError::NotAllowed { code, size } => {
                write!(f, "no peer has a hash of code {code} and {size} bytes")
            }
            PeerError::OtherLength(n) => write!(f, "{n} bytes in place of the digest"),
        }
    }
}

impl std::error::Error for PeerError {}

impl From<Error> for PeerError {
    ghost from_gives = { λ error e. e ≡ Malformed error };

    fn from(e: Error) -> Self {
        PeerError::Malformed(e)
    }
}

/// Reads the identifier that is the whole of `bytes`.
///
/// # Errors
///
/// The variant of [`PeerError`] that applies.
#[tactic(auto, using(multihash::proofs::CallingLemmas::head_of_encoding))]
pub fn read_peer(bytes: &[u8]) -> Result<Multihash<42>, PeerError>
    ensures ok { IfOk result (λ peer. IsPeer (pair_of peer) × IsEncoding (pair_of peer) bytes.now) }
    ensures found { (p : Pair) → IsPeer p → IsEncoding p bytes.now →
        IsOkAnd result (λ peer. pair_of peer ≡ p) }
    ensures err { IfErr result (PeerFails bytes.now) }
{
    let head = Head::read_front(bytes)?;
    let (code, size) = (head.code, head.digest_len);
    if !(code == 0 && size <= 42 || code == 0x12 && size == 32) {
        return Err(PeerError::NotAllowed { code, size });
    }
    let (_, digest) = bytes.split_at(head.digest_offset);
    if digest.len() as u64 != size {
        return Err(PeerError::OtherLength(digest.len()));
    }
    Ok(Multihash::wrap(code, digest).unwrap())
}

/// Whether the bytes are the peer's encoding.
pub fn is_peer<const S: usize>(peer: &Multihash<S>, bytes: &[u8]) -> bool
    ensures { IsTrue result ↔ IsEncoding (pair_of peer.now) bytes.now }
{
    match Multihash::<S>::from_bytes(bytes) {
        Ok(other) => other.same_as(peer),
        Err(_) => false,
    }
}
