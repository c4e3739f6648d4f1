//! A number below 2^63, as its varint.
ghost use Rattle.std.specs.Prelude.{◌≡◌, ◌<◌, ◌≤◌, ◌↔◌, IfSome, IsNone};
ghost use Rattle.multihash.specs.Varint.{varint_limit};

use crate::{Form, FormError};
use multihash::no_std_io::{Read, Write};
use multihash::varint;
use std::alloc::Global;

/// A number below 2^63. Its encoding is its varint.
///
/// `read` returns the errors of [`varint::read`].
#[derive(Clone, Copy, Debug)]
pub struct Number {
    /// The number.
    pub value: u64,
    pub ghost in_range: { value < varint_limit },
}

impl Number {
    /// Returns the number as a form, or `None` if it is 2^63 or more.
    pub fn new(value: u64) -> Option<Self>
        ensures some { IfSome result (λ x. x.value ≡ value) }
        ensures none { IsNone result ↔ (varint_limit ≤ value) }
    {
        if value > varint::MAX {
            return None;
        }
        Some(Number { value })
    }
}

impl Form for Number {
    ghost use Rattle.multihash.specs.Varint.{IsVarint};
    ghost use Rattle.multihash.proofs.VarintLemmas.{varint_some};
    ghost use Rattle.multihash.proofs.VarintWriteLemmas.{varint_exists};
    ghost use Rattle.multihash.specs.Refusal.{IsAnyVarintError};
    ghost use Rattle.form.specs.FormError.{IsFailed};
    ghost use Rattle.form.specs.Rejecting.{RejectsNumber};
    ghost use Rattle.form.specs.Lemmas.Parts.{number_unique, number_one};
    ghost use Rattle.form.specs.Lemmas.Rejected.{number_not_both, number_rejects_unique, number_rejects_some, number_not_truncated};

    ghost is_form = { λ x. IsVarint x.value };

    ghost same = { λ x y. x.value ≡ y.value };

    ghost rejects_with = { IsFailed IsAnyVarintError };

    ghost rejects = { RejectsNumber };

    fn write<W: Write>(&self, w: &mut W) -> Result<(), FormError> {
        varint::write(self.value, w)?;
        Ok(())
    }

    fn read<R: Read>(_alloc: Global, r: &mut R) -> Result<Self, FormError> {
        let value = varint::read(r)?;
        Ok(Number { value })
    }

    ghost exists = { λ x. varint_exists x.value x.in_range };

    ghost unique = { λ x y. number_unique x.value y.value };

    ghost not_both = { λ x. number_not_both x.value };

    ghost rejects_unique = { number_rejects_unique };

    ghost rejects_some = { number_rejects_some };

    ghost not_truncated = { number_not_truncated };

    ghost one = { λ x y. number_one x.value y.value };

    ghost some = { λ x. varint_some x.value };
}
