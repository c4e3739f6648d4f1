//! Numbers of a fixed number of bytes.
ghost use Rattle.std.specs.Prelude.{◌≡◌, ◌<◌, ◌≤◌, ◌^◌};
ghost use Rattle.std.specs.Int.{to_le_bytes, w64};
ghost use Rattle.form.specs.Form.{in_order};

use crate::{Form, FormError};
use multihash::no_std_io::{self, Read, Write};
use std::alloc::Global;

/// A number below 256^`N` in `N` bytes, the highest of them first. `N` is 1 to 8.
pub type BigEndian<const N: usize> = Fixed<N, 1>;

/// A number below 256^`N` in `N` bytes, the lowest of them first. `N` is 1 to 8.
pub type LittleEndian<const N: usize> = Fixed<N, 0>;

/// A number below 256^`N` in `N` bytes, the lowest of them first if `BIG` is 0, otherwise the highest. `N` is 1 to 8.
///
/// `read` returns an unexpected end if fewer bytes remain, or if `N` is not 1 to 8.
#[derive(Clone, Copy, Debug)]
pub struct Fixed<const N: usize, const BIG: u8> {
    /// The number.
    pub value: u64,
    pub ghost some: { 0 < N },
    pub ghost fits: { N ≤ 8 },
    pub ghost in_range: { value < 256 ^ N },
}

impl<const N: usize, const BIG: u8> Form for Fixed<N, BIG> {
    ghost use Rattle.multihash.specs.Refusal.{IsEof};
    ghost use Rattle.form.specs.Form.{number_bytes};
    ghost use Rattle.form.specs.FormError.{IsFailed};
    ghost use Rattle.form.specs.Lemmas.Parts.{array_exists, array_some, fixed_length, fixed_one, fixed_unique};

    ghost is_form = { λ x bytes. bytes ≡ number_bytes BIG N x.value };

    ghost same = { λ x y. x.value ≡ y.value };

    ghost rejects_with = { IsFailed IsEof };

    ghost rejects = { λ _ _. ⊥ };

    fn write<W: Write>(&self, w: &mut W) -> Result<(), FormError> {
        let mut bytes = self.value.to_le_bytes();
        order::<BIG>(&mut bytes[..N]);
        w.write_all(&bytes[..N])?;
        Ok(())
    }

    fn read<R: Read>(_alloc: Global, r: &mut R) -> Result<Self, FormError> {
        if N == 0 || N > 8 {
            return Err(no_std_io::Error::unexpected_eof().into());
        }
        let mut bytes = [0; 8];
        r.read_exact(&mut bytes[..N])?;
        order::<BIG>(&mut bytes[..N]);
        Ok(Fixed {
            value: number_of(bytes),
        })
    }

    ghost exists = { λ x. array_exists (number_bytes BIG N x.value) };

    ghost unique = { λ x y. fixed_unique BIG N x.value y.value x.in_range y.in_range };

    ghost not_both = { λ _ _ _ _ _ _ _ rejects _. rejects };

    ghost rejects_unique = { λ _ _ _ _ _ _ rejects _ _. absurd rejects };

    ghost rejects_some = { λ _ _ rejects. absurd rejects };

    ghost not_truncated = { λ _ _ rejects. absurd rejects };

    ghost one = { λ x y. fixed_one (number_bytes BIG N) x.value y.value };

    ghost some = { λ x. array_some N (number_bytes BIG N x.value) (fixed_length BIG N x.value) x.some };
}

// Reverses the bytes if the highest comes first in the encoding.
fn order<const BIG: u8>(bytes: &mut [u8])
    ensures { bytes.new ≡ in_order BIG bytes.old }
{
    if BIG != 0 {
        bytes.reverse();
    }
}

// The number of these bytes, the lowest first. It has no other bytes, which the read of an array does not state.
fn number_of(bytes: [u8; 8]) -> u64
    ensures { to_le_bytes w64 result ≡ bytes }
{
    u64::from_le_bytes(bytes)
}
