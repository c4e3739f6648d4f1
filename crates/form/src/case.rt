//! Cases of a choice: a tag and what follows it, and other cases.
ghost use Rattle.std.specs.Prelude.{◌≢◌, ◌<◌};
ghost use Rattle.multihash.specs.Varint.{varint_limit};

use crate::cases::Cases;
use crate::{Form, FormError, Number};
use multihash::no_std_io::{Read, Write};
use std::alloc::Global;

/// An `A` with the tag `M`, or one of the other cases `C`.
#[derive(Debug, Drop)]
pub enum Case<A, const M: u64, C: Cases> {
    /// The tag `M`, and an `A`.
    This(Tagged<A, M>),
    /// Another tag, and its value.
    Other(Others<C, M>),
}

/// What follows the tag `M`, which is below 2^63. As the last case of a choice, it rejects each other tag.
#[derive(Debug, Drop)]
pub struct Tagged<A, const M: u64> {
    /// What follows the tag.
    pub value: A,
    pub ghost in_range: { M < varint_limit },
}

/// One of the cases `C`, whose tag is not `M`.
#[derive(Debug, Drop)]
pub struct Others<C: Cases, const M: u64> {
    /// The case.
    pub case: C,
    pub ghost other: { C.tag_of case ≢ M },
}

impl<A: Form, const M: u64, C: Cases> Cases for Case<A, M, C> {
    ghost use Rattle.std.specs.Prelude.{◌≡◌, ◌⊎◌};
    ghost use Rattle.form.specs.Rejecting.{RejectsCase};
    ghost use Rattle.form.specs.Case.{case_tag, IsCaseValue, AreSameCase};
    ghost use Rattle.form.specs.Lemmas.Cases.{case_in_range, case_same_tag, case_exists, case_unique, case_not_both, case_rejects_unique, case_not_truncated, case_one};

    ghost tag_of = { case_tag C.tag_of };

    ghost is_value = { IsCaseValue A.is_form C.is_value };

    ghost same = { AreSameCase A.same C.same };

    ghost rejects_with = { λ n e. ((n ≡ M) × A.rejects_with e) ⊎ ((n ≢ M) × C.rejects_with n e) };

    ghost rejects = { RejectsCase A.rejects C.rejects M };

    fn tag(&self) -> Number {
        match self {
            Case::This(_) => Number { value: M },
            Case::Other(others) => others.case.tag(),
        }
    }

    fn write_value<W: Write>(&self, w: &mut W) -> Result<(), FormError> {
        match self {
            Case::This(tagged) => tagged.value.write(w),
            Case::Other(others) => others.case.write_value(w),
        }
    }

    fn read_value<R: Read>(alloc: Global, r: &mut R, tag: Number) -> Result<Self, FormError> {
        if tag.value == M {
            let value = A::read(alloc, r)?;
            return Ok(Case::This(Tagged { value }));
        }
        let case = C::read_value(alloc, r, tag)?;
        Ok(Case::Other(Others { case }))
    }

    ghost in_range = { case_in_range C.tag_of C.in_range };

    ghost same_tag = { case_same_tag A.same C.same C.tag_of C.same_tag };

    ghost exists = { case_exists A.exists C.exists };

    ghost unique = { case_unique C.tag_of (λ y. y.other) A.unique C.unique };

    ghost not_both = { case_not_both C.tag_of (λ y. y.other) A.rejects C.rejects A.not_both C.not_both };

    ghost rejects_unique = { case_rejects_unique M A.rejects C.rejects A.rejects_unique C.rejects_unique };

    ghost not_truncated = { case_not_truncated M A.rejects C.rejects A.not_truncated C.not_truncated };

    ghost one = { case_one A.one C.one };
}

impl<A: Form, const M: u64> Cases for Tagged<A, M> {
    ghost use Rattle.std.specs.Prelude.{◌≡◌, ◌⊎◌, refl};
    ghost use Rattle.form.specs.declared.error.FormError.TheVariants.{OtherTag};
    ghost use Rattle.form.specs.Rejecting.{RejectsCase, RejectsNoCase};
    ghost use Rattle.form.specs.Lemmas.Cases.{last_not_both, case_rejects_unique, no_case_rejects_unique, case_not_truncated, no_case_not_truncated};

    ghost tag_of = { λ _. M };

    ghost is_value = { λ x. A.is_form x.value };

    ghost same = { λ x y. A.same x.value y.value };

    ghost rejects_with = { λ n e. ((n ≡ M) × A.rejects_with e) ⊎ ((n ≢ M) × (e ≡ OtherTag n)) };

    ghost rejects = { RejectsCase A.rejects RejectsNoCase M };

    fn tag(&self) -> Number {
        Number { value: M }
    }

    fn write_value<W: Write>(&self, w: &mut W) -> Result<(), FormError> {
        self.value.write(w)
    }

    fn read_value<R: Read>(alloc: Global, r: &mut R, tag: Number) -> Result<Self, FormError> {
        if tag.value != M {
            return Err(FormError::OtherTag(tag.value));
        }
        let value = A::read(alloc, r)?;
        Ok(Tagged { value })
    }

    ghost in_range = { λ x. x.in_range };

    ghost same_tag = { λ _ _ _. refl };

    ghost exists = { λ x. A.exists x.value };

    ghost unique = { λ x y _. A.unique x.value y.value };

    ghost not_both = { λ x e. last_not_both M A.rejects e (A.not_both x.value e) };

    ghost rejects_unique = { case_rejects_unique M A.rejects RejectsNoCase A.rejects_unique no_case_rejects_unique };

    ghost not_truncated = { case_not_truncated M A.rejects RejectsNoCase A.not_truncated no_case_not_truncated };

    ghost one = { λ x y. A.one x.value y.value };
}
