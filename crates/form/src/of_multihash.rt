//! A multihash as a form.
ghost use Rattle.std.specs.Prelude.{◌≡◌};

use crate::{Form, FormError};
use multihash::Multihash;
use multihash::no_std_io::{Read, Write};
use std::alloc::Global;

/// `read` returns the errors of [`Multihash::read`].
impl<const S: usize> Form for Multihash<S> {
    ghost use Rattle.multihash.specs.Multihash.{pair_of};
    ghost use Rattle.multihash.specs.Encoding.{IsEncoding};
    ghost use Rattle.multihash.specs.Consuming.{ReadMayFailWith};
    ghost use Rattle.multihash.proofs.EncodingLemmas.{digest_fits};
    ghost use Rattle.form.specs.FormError.{IsFailed};
    ghost use Rattle.form.specs.Rejecting.{RejectsMultihash};
    ghost use Rattle.form.specs.Lemmas.Rejected.{multihash_not_both, multihash_rejects_unique, multihash_rejects_some, multihash_not_truncated};
    ghost use Rattle.form.specs.Lemmas.Parts.{multihash_exists, multihash_unique, multihash_one, multihash_some};

    ghost is_form = { λ m. IsEncoding (pair_of m) };

    ghost same = { λ m n. pair_of m ≡ pair_of n };

    ghost rejects_with = { IsFailed (ReadMayFailWith S) };

    ghost rejects = { RejectsMultihash S };

    fn write<W: Write>(&self, w: &mut W) -> Result<(), FormError> {
        Multihash::write(self, w)?;
        Ok(())
    }

    fn read<R: Read>(_alloc: Global, r: &mut R) -> Result<Self, FormError> {
        let multihash = Multihash::<S>::read(r)?;
        Ok(multihash)
    }

    ghost exists = { multihash_exists };

    ghost unique = { multihash_unique };

    ghost not_both = { λ m. multihash_not_both S (pair_of m) (digest_fits m) };

    ghost rejects_unique = { multihash_rejects_unique S };

    ghost rejects_some = { multihash_rejects_some S };

    ghost not_truncated = { multihash_not_truncated S };

    ghost one = { multihash_one };

    ghost some = { multihash_some };
}
