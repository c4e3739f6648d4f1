//! A multihash in each of its encodings, and back.
ghost use Rattle.std.specs.Prelude.{◌≡◌, ◌<◌, ◌⊎◌, length, MatchResult};
ghost use Rattle.serde_json.specs.View.{view};
ghost use Rattle.multihash.specs.Encoding.{IsEncoding};
ghost use Rattle.multihash.specs.Scale.{IsScale};
ghost use Rattle.multihash.specs.Json.{IsJsonList};
ghost use Rattle.multihash.specs.Refusal.{IsInvalidSize, IsOutOfMemory};
ghost use Rattle.multihash.specs.Multihash.{pair_of};

use crate::content::SHA2_256;
use multihash::{Error, Multihash};
use serde_json::Value;
use std::alloc::Global;

/// The encoding of a digest's multihash, and the multihash decoded from it.
pub fn there_and_back(alloc: Global, digest: &[u8]) -> Result<(Vec<u8>, Multihash<64>), Error>
    ensures { MatchResult result (λ x. IsEncoding (pair_of x.1) x.0.items
        × (pair_of x.1 ≡ record { code = 18; digest = digest.now }))
        (λ e. IsOutOfMemory e ⊎ (IsInvalidSize (length digest.now) e × (64 < length digest.now))) }
{
    let multihash = Multihash::<64>::wrap(SHA2_256, digest)?;
    let bytes = multihash.to_bytes(alloc)?;
    let back = Multihash::from_bytes(&bytes)?;
    Ok((bytes, back))
}

/// The SCALE encoding, and the multihash decoded from it.
pub fn scale(alloc: Global, multihash: &Multihash<32>) -> Result<(Vec<u8>, Multihash<64>), Error>
    ensures { MatchResult result (λ x. IsScale (pair_of multihash.now) x.0.items
        × (pair_of x.1 ≡ pair_of multihash.now)) IsOutOfMemory }
{
    let mut bytes = Vec::new(alloc);
    multihash.scale_encode(&mut bytes)?;
    let back = Multihash::scale_decode(&mut bytes.as_slice())?;
    Ok((bytes, back))
}

/// The JSON value, and the multihash decoded from it.
pub fn json(alloc: Global, multihash: &Multihash<32>) -> Result<(Value, Multihash<64>), Error>
    ensures { MatchResult result (λ x. IsJsonList (pair_of multihash.now) (view x.0)
        × (pair_of x.1 ≡ pair_of multihash.now)) IsOutOfMemory }
{
    let value = multihash.to_value(alloc)?;
    let back = Multihash::from_value(&value)?;
    Ok((value, back))
}
