//! Comparison and hashing.
ghost use Rattle.std.specs.Prelude.{◌≡◌, ◌==◌, ◌↔◌, Some, IsTrue};
ghost use Rattle.std.proofs.Common.{rules};
ghost use Rattle.std.specs.Cmp.{partial_order_from_own_ties};
ghost use Rattle.std.specs.Cmp.Rules.{comparing, hashing};
ghost use Rattle.std.specs.Ordering.{on, as_partial_cmp};
ghost use Rattle.multihash.specs.Comparing.{equal_pairs, compare_pairs, hashed_pair};
ghost use Rattle.multihash.specs.Multihash.{pair_of};

use crate::Multihash;
use std::cmp::Ordering;
use std::hash::{Hash, Hasher};

impl<const S: usize> Multihash<S> {
    /// Returns whether both have the same code and the same digest, whatever their capacities.
    pub fn same_as<const B: usize>(&self, other: &Multihash<B>) -> bool
        ensures { IsTrue result ↔ (pair_of self.now ≡ pair_of other.now) }
    {
        self.code() == other.code() && self.digest() == other.digest()
    }
}

/// Equal if the codes and the digests are equal; [`Multihash::same_as`] compares across capacities.
impl<const S: usize> PartialEq for Multihash<S> {
    ghost eq = { on pair_of equal_pairs };

    ghost laws = { Prim.search (comparing, rules) depth 9 };

    fn eq(&self, other: &Self) -> bool
        ensures computes { result ≡ equal_pairs (pair_of self.now) (pair_of other.now) }
        ensures same { IsTrue result ↔ (pair_of self.now ≡ pair_of other.now) }
    {
        self.same_as(other)
    }
}

impl<const S: usize> Eq for Multihash<S> {
    ghost laws = { Prim.search (comparing, rules) depth 9 };
}

/// By code, then by digest length, then by the first digest byte that differs.
impl<const S: usize> Ord for Multihash<S> {
    ghost cmp = { on pair_of compare_pairs };

    ghost total = { Prim.search (comparing, rules) depth 9 };

    ghost matches_partial_cmp = { Prim.search (comparing, rules) depth 9 };

    ghost matches_eq = { Prim.search (comparing, rules) depth 9 };

    fn cmp(&self, other: &Self) -> Ordering
        ensures { result ≡ compare_pairs (pair_of self.now) (pair_of other.now) }
    {
        if self.code != other.code {
            return self.code.cmp(&other.code);
        }
        if self.size != other.size {
            return self.size.cmp(&other.size);
        }
        self.digest().cmp(other.digest())
    }
}

impl<const S: usize> PartialOrd for Multihash<S> {
    ghost partial_cmp = { as_partial_cmp (on pair_of compare_pairs) };

    ghost laws = { partial_order_from_own_ties
        (Prim.search (comparing, rules) depth 9) (Prim.search (comparing, rules) depth 9) };

    fn partial_cmp(&self, other: &Self) -> Option<Ordering> {
        Some(self.cmp(other))
    }
}

/// Hashes as the pair of the code and the digest, `(u64, &[u8])`, does.
impl<const S: usize> Hash for Multihash<S> {
    ghost hash_input = { λ m. hashed_pair (pair_of m) };

    ghost respects_eq = { Prim.search (hashing, rules) depth 9 };

    fn hash<H: Hasher>(&self, state: &mut H) {
        self.code.hash(state);
        self.digest().hash(state);
    }
}
