//! What callers can know of each implementation beyond the laws of its trait, as the contracts of
//! functions that do nothing, or return a constant. If an implementation exposed less, its proof here would fail.
ghost use Rattle.std.specs.Prelude.{◌≡◌, ◌↔◌, ℕ, List, [], Some, true, false};
ghost use Rattle.multihash.specs.Multihash.{pair_of};
ghost use Rattle.multihash.specs.Writing.{AdvancesPast, AppendsAtEnd};
ghost use Rattle.multihash.specs.Filling.{Fills, IsFilled};

use crate::Multihash;
use crate::no_std_io::{Read, SliceWriter, Write};
use std::hash::Hash;

// A clone has the same pair.
fn clones_are_same<const S: usize>(m: &Multihash<S>, n: &Multihash<S>)
    ensures { ⟦<Multihash<S> as Clone>⟧.is_clone m.now n.now → pair_of n.now ≡ pair_of m.now }
{}

// A multihash feeds a hasher what the pair of its code and its digest feeds it.
fn hashes_as_the_pair<const S: usize>(m: &Multihash<S>, pair: &(u64, &'static [u8]))
    ensures { pair.now.0 ≡ (pair_of m.now).code → pair.now.1.now ≡ (pair_of m.now).digest →
        ⟦<Multihash<S> as Hash>⟧.hash_input m.now
        ≡ ⟦<(u64, &'static [u8]) as Hash>⟧.hash_input pair.now }
{}

fn slice_reader(s: &[u8])
    ensures rest { ⟦<&'static [u8] as Read>⟧.rest s.entry ≡ Some s.now }
    ensures failures { ⟦<&'static [u8] as Read>⟧.failures s.entry ≡ 0 }
{}

fn borrowed_reader<R: Read>(r: &mut R)
    ensures rest { ⟦<&'static mut R as Read>⟧.rest r.entry ≡ R.rest r.old }
    ensures failures { ⟦<&'static mut R as Read>⟧.failures r.entry ≡ R.failures r.old }
{}

fn mut_slice(s: &mut [u8], t: &mut [u8])
    ensures allocates { ⟦<&'static mut [u8] as Write>⟧.allocates ≡ false }
    ensures appended { (bytes : List ℕ) →
        ⟦<&'static mut [u8] as Write>⟧.appended s.entry bytes t.entry
        ↔ AdvancesPast s.old bytes t.old }
    ensures full { ⟦<&'static mut [u8] as Write>⟧.full s.entry ↔ (s.old ≡ []) }
    ensures failures { ⟦<&'static mut [u8] as Write>⟧.failures s.entry ≡ 0 }
{}

fn slice_writer(s: &mut SliceWriter, t: &mut SliceWriter)
    ensures allocates { ⟦<SliceWriter<'static> as Write>⟧.allocates ≡ false }
    ensures appended { (bytes : List ℕ) →
        ⟦<SliceWriter<'static> as Write>⟧.appended s.old bytes t.old ↔ Fills s.old bytes t.old }
    ensures full { ⟦<SliceWriter<'static> as Write>⟧.full s.old ↔ IsFilled s.old }
    ensures failures { ⟦<SliceWriter<'static> as Write>⟧.failures s.old ≡ 0 }
{}

fn vector_writer(v: &Vec<u8>, w: &Vec<u8>)
    ensures allocates { ⟦<Vec<u8> as Write>⟧.allocates ≡ true }
    ensures appended { (bytes : List ℕ) →
        ⟦<Vec<u8> as Write>⟧.appended v.now bytes w.now
        ↔ AppendsAtEnd v.now.items bytes w.now.items }
    ensures full { ¬ (⟦<Vec<u8> as Write>⟧.full v.now) }
    ensures failures { ⟦<Vec<u8> as Write>⟧.failures v.now ≡ 0 }
{}

fn borrowed_writer<W: Write>(v: &mut W, w: &mut W)
    ensures allocates { ⟦<&'static mut W as Write>⟧.allocates ≡ W.allocates }
    ensures appended { (bytes : List ℕ) →
        ⟦<&'static mut W as Write>⟧.appended v.entry bytes w.entry ↔ W.appended v.old bytes w.old }
    ensures full { ⟦<&'static mut W as Write>⟧.full v.entry ↔ W.full v.old }
    ensures failures { ⟦<&'static mut W as Write>⟧.failures v.entry ≡ W.failures v.old }
{}

// The value of `ALLOCATES` at run time is the one that contracts see.
fn vector_allocates() -> bool
    ensures { result ≡ ⟦<Vec<u8> as Write>⟧.allocates }
{
    <Vec<u8> as Write>::ALLOCATES
}

fn mut_slice_allocates() -> bool
    ensures { result ≡ ⟦<&'static mut [u8] as Write>⟧.allocates }
{
    <&'static mut [u8] as Write>::ALLOCATES
}

fn slice_writer_allocates() -> bool
    ensures { result ≡ ⟦<SliceWriter<'static> as Write>⟧.allocates }
{
    SliceWriter::ALLOCATES
}
