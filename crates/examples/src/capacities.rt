//! Digests in buffers of a given capacity.
ghost use Rattle.std.specs.Prelude.{◌≡◌, ◌<◌, ◌++◌, ◌-◌, ◌^◌, length, min, take, replicate, IfOk, IsTrue};
ghost use Rattle.multihash.specs.Pair.{truncated};
ghost use Rattle.multihash.specs.Multihash.{pair_of};

use multihash::{Error, Multihash};

/// Returns the code, the first 20 bytes of the digest, with zeros after a shorter one, and their number
/// without the zeros.
pub fn first_20<const S: usize>(multihash: &Multihash<S>) -> (u64, [u8; 20], u8)
    ensures code { result.0 ≡ (pair_of multihash.now).code }
    ensures array { result.1 ≡ take 20 (pair_of multihash.now).digest
        ++ replicate (20 - length (pair_of multihash.now).digest) 0 }
    ensures size { result.2 ≡ min 20 (length (pair_of multihash.now).digest) }
{
    multihash.truncate(20).resize::<20>().unwrap().into_inner()
}

/// Returns the multihash truncated twice, which is truncated once to the smaller size.
pub fn truncate_twice<const S: usize>(m: &Multihash<S>, first: u8, second: u8) -> Multihash<S>
    ensures { pair_of result ≡ truncated (min first second) (pair_of m.now) }
{
    m.truncate(first).truncate(second)
}

/// Returns the multihash in a buffer of another capacity, if it fits, and whether the two are the same, which
/// they are.
pub fn resized<const S: usize, const R: usize>(
    m: &Multihash<S>,
) -> Result<(Multihash<R>, bool), Error>
    requires { R < 2 ^ 16 }
    ensures { IfOk result (λ x. (pair_of x.0 ≡ pair_of m.now) × IsTrue x.1) }
{
    let resized = m.resize::<R>()?;
    let is_same = resized.same_as(m);
    Ok((resized, is_same))
}
