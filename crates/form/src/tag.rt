//! A fixed number, as a varint.
ghost use Rattle.std.specs.Prelude.{◌≡◌, ◌≢◌, ◌<◌, ◌⊎◌, ℕ};
ghost use Rattle.multihash.specs.Varint.{varint_limit};

use crate::{Form, FormError};
use multihash::no_std_io::{Read, Write};
use multihash::varint;
use std::alloc::Global;

/// The number `N`, which is below 2^63, such as a version or the code of a format. Its encoding is its varint.
///
/// `read` returns the errors of [`varint::read`], and [`FormError::OtherTag`] with the number that comes next if that
/// is not `N`.
#[derive(Clone, Copy, Debug)]
pub struct Tag<const N: u64> {
    pub ghost in_range: { N < varint_limit },
}

impl<const N: u64> Form for Tag<N> {
    ghost use Rattle.multihash.specs.Varint.{IsVarint};
    ghost use Rattle.multihash.proofs.VarintLemmas.{varint_some};
    ghost use Rattle.multihash.proofs.VarintWriteLemmas.{varint_exists};
    ghost use Rattle.multihash.specs.Refusal.{IsAnyVarintError};
    ghost use Rattle.form.specs.FormError.{IsFailed};
    ghost use Rattle.form.specs.declared.error.FormError.TheVariants.{OtherTag};
    ghost use Rattle.form.specs.Rejecting.{RejectsNumberThen, RejectsOtherTag};
    ghost use Rattle.form.specs.Lemmas.Parts.{tag_unique, tag_one};
    ghost use Rattle.form.specs.Lemmas.Rejected.{tag_not_both, tag_rejects_unique, from_some, tag_not_truncated};

    ghost is_form = { λ _. IsVarint N };

    ghost same = { λ _ _. Unit {0} };

    ghost rejects_with = { λ e. IsFailed IsAnyVarintError e
        ⊎ ((n : ℕ) × (e ≡ OtherTag n) × (n ≢ N)) };

    ghost rejects = { RejectsNumberThen (RejectsOtherTag N) };

    fn write<W: Write>(&self, w: &mut W) -> Result<(), FormError> {
        // For the proof: each value of the type shows that `N` is below 2^63.
        let _in_range = *self;
        varint::write(N, w)?;
        Ok(())
    }

    fn read<R: Read>(_alloc: Global, r: &mut R) -> Result<Self, FormError> {
        let number = varint::read(r)?;
        if number != N {
            return Err(FormError::OtherTag(number));
        }
        Ok(Tag {})
    }

    ghost exists = { λ x. varint_exists N x.in_range };

    ghost unique = { λ _ _. tag_unique N };

    ghost not_both = { λ _. tag_not_both N };

    ghost rejects_unique = { tag_rejects_unique N };

    ghost rejects_some = { λ e. from_some e };

    ghost not_truncated = { tag_not_truncated N };

    ghost one = { λ _ _. tag_one N };

    ghost some = { λ _. varint_some N };
}
