//! Items with their number before them.
ghost use Rattle.std.specs.Prelude.{◌≡◌, ◌<◌, ◌≤◌, ◌⊎◌, ℕ, List, length, vec_len, OnOk, OnErr, IfOk, IfErr};
ghost use Rattle.multihash.specs.Varint.{varint_limit};
ghost use Rattle.multihash.specs.Streams.{AreParts};
ghost use Rattle.multihash.specs.Consuming.{ConsumesSome};
ghost use Rattle.multihash.specs.Reading.{CountsReaderFailures};
ghost use Rattle.multihash.specs.Writing.{CountsWriterFailures};
ghost use Rattle.multihash.specs.Refusal.{IsIo, IsOutOfMemory, IsReaderError};
ghost use Rattle.form.specs.Form.{Then, AreSame, AppendsSome, AppendsPrefixOfSome};
ghost use Rattle.form.specs.FormError.{IsFailed};
ghost use Rattle.form.specs.Rejecting.{AreItems, RejectsItem, ReadStops};

use crate::{Form, FormError};
use multihash::no_std_io::{Read, Write};
use multihash::varint;
use std::alloc::Global;

/// At most `MAX` items. The encoding is the varint of their number, and the encodings of the items in order.
///
/// `read` returns the errors of [`varint::read`], [`FormError::TooMany`] with the number of items if that is above
/// `MAX`, and the errors of the items. Memory grows with the items that arrive.
#[derive(Debug, Drop)]
pub struct Counted<T, const MAX: usize> {
    /// The items.
    pub items: Vec<T>,
    pub ghost within: { vec_len items ≤ MAX },
    pub ghost in_range: { vec_len items < varint_limit },
}

impl<T: Form + Drop, const MAX: usize> Form for Counted<T, MAX> {
    ghost use Rattle.multihash.specs.Varint.{IsVarint};
    ghost use Rattle.multihash.specs.Refusal.{IsAnyVarintError};
    ghost use Rattle.form.specs.declared.error.FormError.TheVariants.{TooMany};
    ghost use Rattle.form.specs.Rejecting.{RejectsNumberThen, RejectsCounted};
    ghost use Rattle.form.specs.Lemmas.Rejected.{counted_not_both, counted_rejects_unique, from_some, counted_not_truncated};
    ghost use Rattle.form.specs.Lemmas.Parts.{counted_exists, counted_unique, counted_one, counted_some};

    ghost is_form = { λ x. Then (IsVarint (length x.items.items)) (AreParts T.is_form x.items.items) };

    ghost same = { λ x y. AreSame T.same x.items.items y.items.items };

    ghost rejects_with = { λ e. T.rejects_with e ⊎ IsFailed (λ r. IsAnyVarintError r ⊎ IsOutOfMemory r) e
        ⊎ ((n : ℕ) × (e ≡ TooMany n) × (MAX < n)) };

    ghost rejects = { RejectsNumberThen (RejectsCounted T.is_form T.rejects MAX) };

    fn write<W: Write>(&self, w: &mut W) -> Result<(), FormError> {
        varint::write(self.items.len() as u64, w)?;
        write_items(&self.items, w)
    }

    fn read<R: Read>(alloc: Global, r: &mut R) -> Result<Self, FormError> {
        let count = varint::read(r)?;
        if count > MAX as u64 {
            return Err(FormError::TooMany(count));
        }
        let items = read_items(alloc, r, count as usize)?;
        Ok(Counted { items })
    }

    ghost exists = { λ x. counted_exists T.exists x.items.items (vec_len x.items) x.items.ok.0 x.in_range };

    ghost unique = { λ x y. counted_unique T.unique x.items.items y.items.items };

    ghost not_both = { λ x. counted_not_both T.unique T.not_both MAX x.items.items (vec_len x.items) x.items.ok.0 x.within };

    ghost rejects_unique = { counted_rejects_unique T.unique T.not_both MAX T.rejects_unique };

    ghost rejects_some = { λ e. from_some e };

    ghost not_truncated = { counted_not_truncated T.is_form T.not_truncated MAX };

    ghost one = { λ x y. counted_one T.one x.items.items y.items.items };

    ghost some = { λ x. counted_some T.is_form x.items.items };
}

/// Appends the encodings of the items, one after another.
pub fn write_items<T: Form, W: Write>(items: &[T], w: &mut W) -> Result<(), FormError>
    ensures ok { OnOk result (AppendsSome W.appended (AreParts T.is_form items.now) w.old w.new) }
    ensures err { OnErr result (AppendsPrefixOfSome W.appended (AreParts T.is_form items.now) w.old w.new) }
    ensures faults { CountsWriterFailures (λ P. IsFailed (IsIo P)) W.allocates
        (W.failures w.old) (W.failures w.new) (W.full w.new) result }
{
    for item in items {
        item.write(w)?;
    }
    Ok(())
}

/// Reads `count` items, one after another, and leaves what follows them in `r` unread. Memory grows with the items that
/// arrive.
///
/// # Errors
///
/// Out of memory, or the first error of an item's `read`. The items that were read are dropped.
pub fn read_items<T: Form + Drop, R: Read>(
    alloc: Global,
    r: &mut R,
    count: usize,
) -> Result<Vec<T>, FormError>
    ensures count { IfOk result (λ list. vec_len list ≡ count) }
    ensures ok { IfOk result (λ list.
        ConsumesSome (AreParts T.is_form list.items) (R.rest r.old) (R.rest r.new)) }
    ensures faults { CountsReaderFailures (IsFailed IsReaderError) (λ e. T.rejects_with e ⊎ IsFailed IsOutOfMemory e)
        (R.failures r.old) (R.failures r.new) result }
    ensures err { IfErr result (λ e. ReadStops (AreItems T.is_form count) (RejectsItem T.is_form T.rejects count)
        (R.failures r.old) (R.failures r.new) e (R.rest r.old) (R.rest r.new)) }
{
    let mut items = Vec::new(alloc);
    for _ in 0..count {
        let item = T::read(alloc, r)?;
        items.push(item)?;
    }
    Ok(items)
}
