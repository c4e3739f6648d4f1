//! Two parts, one after the other.
ghost use Rattle.std.specs.Prelude.{◌⊎◌, OnOk, OnErr};
ghost use Rattle.multihash.specs.Writing.{CountsWriterFailures};
ghost use Rattle.multihash.specs.Refusal.{IsIo};
ghost use Rattle.form.specs.Form.{Then, AppendsSome, AppendsPrefixOfSome};
ghost use Rattle.form.specs.FormError.{IsFailed};

use crate::{Form, FormError};
use multihash::no_std_io::{Read, Write};
use std::alloc::Global;

/// One part, and then the other. The encoding is the encodings of both.
///
/// `read` returns the errors of both.
#[derive(Debug, Drop)]
pub struct Both<A, B> {
    /// The first part.
    pub first: A,
    /// The second part.
    pub second: B,
}

impl<A: Form + Drop, B: Form> Form for Both<A, B> {
    ghost use Rattle.form.specs.Lemmas.Parts.{then_exists, then_unique, then_one, then_some};
    ghost use Rattle.form.specs.Rejecting.{RejectsInTurn};
    ghost use Rattle.form.specs.Lemmas.Rejected.{turn_not_both, turn_unique, turn_some, turn_has};

    ghost is_form = { λ x. Then (A.is_form x.first) (B.is_form x.second) };

    ghost same = { λ x y. A.same x.first y.first × B.same x.second y.second };

    ghost rejects_with = { λ e. A.rejects_with e ⊎ B.rejects_with e };

    ghost rejects = { RejectsInTurn A.is_form A.rejects (λ _. B.rejects) };

    fn write<W: Write>(&self, w: &mut W) -> Result<(), FormError> {
        write_two(&self.first, &self.second, w)
    }

    fn read<R: Read>(alloc: Global, r: &mut R) -> Result<Self, FormError> {
        let first = A::read(alloc, r)?;
        let second = B::read(alloc, r)?;
        Ok(Both { first, second })
    }

    ghost exists = { λ x. then_exists (A.exists x.first) (B.exists x.second) };

    ghost unique = { λ x y. then_unique (A.unique x.first y.first) (λ _. B.unique x.second y.second) };

    ghost not_both = { λ x e. turn_not_both A.unique (λ y. A.not_both y e) x.first (λ _ _. B.not_both x.second e) };

    ghost rejects_unique = { λ e f. turn_unique A.unique (λ x. A.not_both x e) (λ x. A.not_both x f) (A.rejects_unique e f)
        (λ _ _ _. B.rejects_unique e f) };

    ghost rejects_some = { λ e. turn_some A.some (A.rejects_some e) };

    ghost not_truncated = { λ e. turn_has (A.not_truncated e) (λ _. B.not_truncated e) };

    ghost one = { λ x y a b same. then_one a b (λ c d. A.one x.first y.first c d same.0)
        (λ c d. B.one x.second y.second c d same.1) };

    ghost some = { λ x. then_some (A.some x.first) };
}

/// Appends the encodings of two parts to `w`, as `write` of [`Both`] does: for a struct whose fields have names.
///
/// # Errors
///
/// The writer's error. A strict prefix of the encoding has been appended then.
pub fn write_two<A: Form, B: Form, W: Write>(
    first: &A,
    second: &B,
    w: &mut W,
) -> Result<(), FormError>
    ensures ok { OnOk result (AppendsSome W.appended
        (Then (A.is_form first.now) (B.is_form second.now)) w.old w.new) }
    ensures err { OnErr result (AppendsPrefixOfSome W.appended
        (Then (A.is_form first.now) (B.is_form second.now)) w.old w.new) }
    ensures faults { CountsWriterFailures (λ P. IsFailed (IsIo P)) W.allocates
        (W.failures w.old) (W.failures w.new) (W.full w.new) result }
{
    first.write(w)?;
    second.write(w)
}

/// Appends the encodings of three parts to `w`, as [`write_two`] does.
///
/// # Errors
///
/// The writer's error. A strict prefix of the encoding has been appended then.
pub fn write_three<A: Form, B: Form, C: Form, W: Write>(
    first: &A,
    second: &B,
    third: &C,
    w: &mut W,
) -> Result<(), FormError>
    ensures ok { OnOk result (AppendsSome W.appended
        (Then (A.is_form first.now) (Then (B.is_form second.now) (C.is_form third.now))) w.old w.new) }
    ensures err { OnErr result (AppendsPrefixOfSome W.appended
        (Then (A.is_form first.now) (Then (B.is_form second.now) (C.is_form third.now))) w.old w.new) }
    ensures faults { CountsWriterFailures (λ P. IsFailed (IsIo P)) W.allocates
        (W.failures w.old) (W.failures w.new) (W.full w.new) result }
{
    first.write(w)?;
    write_two(second, third, w)
}
