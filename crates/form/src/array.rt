//! Exactly `N` bytes, without a length before them.
ghost use Rattle.std.specs.Prelude.{◌≡◌, ◌<◌, length};

use crate::{Form, FormError};
use multihash::no_std_io::{self, Read, Write};
use std::alloc::Global;

/// `N` bytes, with no length before them. `N` is at least 1, since no encoding is empty.
///
/// `read` returns an unexpected end if fewer bytes remain, or if `N` is 0.
#[derive(Clone, Copy, Debug)]
pub struct Bytes<const N: usize> {
    /// The bytes.
    pub bytes: [u8; N],
    pub ghost size: { length bytes ≡ N },
    pub ghost some: { 0 < N },
}

impl<const N: usize> Form for Bytes<N> {
    ghost use Rattle.multihash.specs.Refusal.{IsEof};
    ghost use Rattle.form.specs.FormError.{IsFailed};
    ghost use Rattle.form.specs.Lemmas.Parts.{array_exists, array_unique, array_one, array_some};

    ghost is_form = { λ x bytes. bytes ≡ x.bytes };

    ghost same = { λ x y. x.bytes ≡ y.bytes };

    ghost rejects_with = { IsFailed IsEof };

    ghost rejects = { λ _ _. ⊥ };

    fn write<W: Write>(&self, w: &mut W) -> Result<(), FormError> {
        w.write_all(&self.bytes)?;
        Ok(())
    }

    fn read<R: Read>(_alloc: Global, r: &mut R) -> Result<Self, FormError> {
        if N == 0 {
            return Err(no_std_io::Error::unexpected_eof().into());
        }
        let mut bytes = [0; N];
        r.read_exact(&mut bytes)?;
        Ok(Bytes { bytes })
    }

    ghost exists = { λ x. array_exists x.bytes };

    ghost unique = { λ x y. array_unique N x.bytes y.bytes x.size y.size };

    ghost not_both = { λ _ _ _ _ _ _ _ rejects _. rejects };

    ghost rejects_unique = { λ _ _ _ _ _ _ rejects _ _. absurd rejects };

    ghost rejects_some = { λ _ _ rejects. absurd rejects };

    ghost not_truncated = { λ _ _ rejects. absurd rejects };

    ghost one = { λ x y. array_one x.bytes y.bytes };

    ghost some = { λ x. array_some N x.bytes x.size x.some };
}
