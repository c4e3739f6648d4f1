//! A loop over the multihashes of a stream.
ghost use Rattle.std.specs.Prelude.{◌≡◌, List, map, IfOk};
ghost use Rattle.multihash.specs.Pair.{Pair};
ghost use Rattle.multihash.specs.Streams.{AreConcatenated};

use multihash::{Error, Multihash};
use std::alloc::Global;

/// Returns the codes of the multihashes that are the bytes, one after another.
///
/// # Errors
///
/// Those of [`Multihash::read_next`] for a capacity of 64 bytes, and out of memory.
pub fn codes(alloc: Global, bytes: &[u8]) -> Result<Vec<u64>, Error>
    ensures { IfOk result (λ codes. (pairs : List Pair) × AreConcatenated pairs bytes.now
        × (codes.items ≡ map (λ p. p.code) pairs)) }
{
    let mut codes = Vec::new(alloc);
    let mut left = bytes;
    for _ in 0..bytes.len() {
        let Some(multihash) = Multihash::<64>::read_next(&mut left)? else {
            return Ok(codes);
        };
        codes.push(multihash.code())?;
    }
    Ok(codes)
}
