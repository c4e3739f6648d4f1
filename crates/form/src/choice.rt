//! One of any number of formats, which the tag at the start of the encoding determines.
use crate::cases::Cases;
use crate::{Form, FormError, Number};
use multihash::no_std_io::{Read, Write};
use multihash::varint;
use std::alloc::Global;

/// One of the cases of `C`, such as `Case<Bytes<4>, 4, Tagged<Bytes<2>, 6>>`. The encoding is the varint of its
/// tag, and the encoding of its value.
///
/// `read` returns the errors of [`varint::read`], [`FormError::OtherTag`] with the number that comes next if that is
/// the tag of no case, and the errors of what follows.
#[derive(Debug, Drop)]
pub struct Choice<C> {
    /// The case.
    pub case: C,
}

impl<C: Cases> Form for Choice<C> {
    ghost use Rattle.std.specs.Prelude.{◌⊎◌, ℕ};
    ghost use Rattle.multihash.specs.Varint.{IsVarint};
    ghost use Rattle.multihash.specs.Refusal.{IsAnyVarintError};
    ghost use Rattle.multihash.proofs.VarintLemmas.{varint_some};
    ghost use Rattle.multihash.proofs.VarintWriteLemmas.{varint_exists};
    ghost use Rattle.form.specs.Form.{Then};
    ghost use Rattle.form.specs.FormError.{IsFailed};
    ghost use Rattle.form.specs.Rejecting.{RejectsNumberThen};
    ghost use Rattle.form.specs.Lemmas.Parts.{then_exists, then_some};
    ghost use Rattle.form.specs.Lemmas.Rejected.{from_not_both, from_unique, from_some, from_not_truncated};
    ghost use Rattle.form.specs.Lemmas.Cases.{choice_unique, choice_one};

    ghost is_form = { λ x. Then (IsVarint (C.tag_of x.case)) (C.is_value x.case) };

    ghost same = { λ x y. C.same x.case y.case };

    ghost rejects_with = { λ e. IsFailed IsAnyVarintError e ⊎ ((n : ℕ) × C.rejects_with n e) };

    ghost rejects = { RejectsNumberThen C.rejects };

    fn write<W: Write>(&self, w: &mut W) -> Result<(), FormError> {
        self.case.tag().write(w)?;
        self.case.write_value(w)
    }

    fn read<R: Read>(alloc: Global, r: &mut R) -> Result<Self, FormError> {
        let tag = varint::read(r)?;
        let case = C::read_value(alloc, r, Number { value: tag })?;
        Ok(Choice { case })
    }

    ghost exists = { λ x. then_exists (varint_exists (C.tag_of x.case) (C.in_range x.case)) (C.exists x.case) };

    ghost unique = { λ x y. choice_unique C.tag_of C.unique x.case y.case };

    ghost not_both = { λ x e. from_not_both e (C.tag_of x.case) (C.not_both x.case e) };

    ghost rejects_unique = { λ e f. from_unique e f (λ n. C.rejects_unique n e f) };

    ghost rejects_some = { λ e. from_some e };

    ghost not_truncated = { λ e. from_not_truncated e (λ n. C.not_truncated n e) };

    ghost one = { λ x y. choice_one C.tag_of C.same_tag C.one x.case y.case };

    ghost some = { λ x. then_some (varint_some (C.tag_of x.case)) };
}
