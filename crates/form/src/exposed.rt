//! What callers can know of each part beyond the laws of the trait, as the contracts of functions that do nothing. If a
//! part exposed less, its proof here would fail.
ghost use Rattle.std.specs.Prelude.{◌≡◌, ◌≢◌, ◌<◌, ◌↔◌, ◌⊎◌, ℕ, List, length};
ghost use Rattle.std.specs.Int.{bytes_high_first, bytes_low_first};
ghost use Rattle.multihash.specs.Multihash.{pair_of};
ghost use Rattle.multihash.specs.Varint.{IsVarint};
ghost use Rattle.multihash.specs.Encoding.{IsEncoding};
ghost use Rattle.multihash.specs.Streams.{AreParts};
ghost use Rattle.multihash.specs.Consuming.{ReadMayFailWith};
ghost use Rattle.multihash.specs.Refusal.{IsAnyVarintError, IsEof, IsOutOfMemory};
ghost use Rattle.form.specs.Form.{Then, IsBlock, AreSame};
ghost use Rattle.form.specs.FormError.{IsFailed};
ghost use Rattle.form.specs.Rejecting.{RejectsNumber, RejectsMultihash, RejectsInTurn, RejectsNumberThen, RejectsOtherTag, RejectsTooLong, RejectsCounted, RejectsCase, RejectsNoCase};
ghost use Rattle.form.specs.declared.error.FormError.TheVariants.{TooMany, TooLong, OtherTag};
ghost use Rattle.form.specs.declared.case.Case.TheVariants.{This, Other};

use crate::{
    BigEndian, Block, Both, Bytes, Case, Cases, Choice, Counted, Fixed, Form, FormError,
    LittleEndian, Number, Others, Tag, Tagged,
};
use multihash::Multihash;

fn multihashes<const S: usize>(x: &Multihash<S>, y: &Multihash<S>, e: &FormError)
    ensures is_form { (bytes : List ℕ) →
        ⟦<Multihash<S> as Form>⟧.is_form x.now bytes ↔ IsEncoding (pair_of x.now) bytes }
    ensures same { ⟦<Multihash<S> as Form>⟧.same x.now y.now ↔ (pair_of x.now ≡ pair_of y.now) }
    ensures rejects_with { ⟦<Multihash<S> as Form>⟧.rejects_with e.now → IsFailed (ReadMayFailWith S) e.now }
    ensures rejects { (bytes : List ℕ) →
        ⟦<Multihash<S> as Form>⟧.rejects e.now bytes ↔ RejectsMultihash S e.now bytes }
{}

fn numbers(x: &Number, y: &Number, e: &FormError)
    ensures is_form { (bytes : List ℕ) → ⟦<Number as Form>⟧.is_form x.now bytes ↔ IsVarint x.now.value bytes }
    ensures same { ⟦<Number as Form>⟧.same x.now y.now ↔ (x.now.value ≡ y.now.value) }
    ensures rejects_with { ⟦<Number as Form>⟧.rejects_with e.now → IsFailed IsAnyVarintError e.now }
    ensures rejects { (bytes : List ℕ) → ⟦<Number as Form>⟧.rejects e.now bytes ↔ RejectsNumber e.now bytes }
{}

fn tags<const N: u64>(x: &Tag<N>, e: &FormError)
    ensures is_form { (bytes : List ℕ) → ⟦<Tag<N> as Form>⟧.is_form x.now bytes ↔ IsVarint N bytes }
    ensures rejects_with { ⟦<Tag<N> as Form>⟧.rejects_with e.now → IsFailed IsAnyVarintError e.now
        ⊎ ((n : ℕ) × (e.now ≡ OtherTag n) × (n ≢ N)) }
    ensures rejects { (bytes : List ℕ) →
        ⟦<Tag<N> as Form>⟧.rejects e.now bytes ↔ RejectsNumberThen (RejectsOtherTag N) e.now bytes }
{}

fn arrays<const N: usize>(x: &Bytes<N>, y: &Bytes<N>, e: &FormError)
    ensures is_form { (bytes : List ℕ) → ⟦<Bytes<N> as Form>⟧.is_form x.now bytes ↔ (bytes ≡ x.now.bytes) }
    ensures same { ⟦<Bytes<N> as Form>⟧.same x.now y.now ↔ (x.now.bytes ≡ y.now.bytes) }
    ensures rejects_with { ⟦<Bytes<N> as Form>⟧.rejects_with e.now → IsFailed IsEof e.now }
    ensures rejects { (bytes : List ℕ) → ¬ (⟦<Bytes<N> as Form>⟧.rejects e.now bytes) }
{}

fn fixed<const N: usize, const BIG: u8>(x: &Fixed<N, BIG>, y: &Fixed<N, BIG>, e: &FormError)
    ensures same { ⟦<Fixed<N, BIG> as Form>⟧.same x.now y.now ↔ (x.now.value ≡ y.now.value) }
    ensures rejects_with { ⟦<Fixed<N, BIG> as Form>⟧.rejects_with e.now → IsFailed IsEof e.now }
    ensures rejects { (bytes : List ℕ) → ¬ (⟦<Fixed<N, BIG> as Form>⟧.rejects e.now bytes) }
{}

fn big_or_little<const N: usize>(x: &BigEndian<N>, y: &LittleEndian<N>)
    ensures big { (bytes : List ℕ) →
        ⟦<BigEndian<N> as Form>⟧.is_form x.now bytes ↔ (bytes ≡ bytes_high_first N x.now.value) }
    ensures little { (bytes : List ℕ) →
        ⟦<LittleEndian<N> as Form>⟧.is_form y.now bytes ↔ (bytes ≡ bytes_low_first 0 N y.now.value) }
{}

fn blocks<const MAX: usize>(x: &Block<MAX>, y: &Block<MAX>, e: &FormError)
    ensures is_form { (bytes : List ℕ) →
        ⟦<Block<MAX> as Form>⟧.is_form x.now bytes ↔ IsBlock x.now.bytes.items bytes }
    ensures same { ⟦<Block<MAX> as Form>⟧.same x.now y.now ↔ (x.now.bytes.items ≡ y.now.bytes.items) }
    ensures rejects_with { ⟦<Block<MAX> as Form>⟧.rejects_with e.now →
        IsFailed (λ r. IsAnyVarintError r ⊎ IsEof r ⊎ IsOutOfMemory r) e.now
        ⊎ ((n : ℕ) × (e.now ≡ TooLong n) × (MAX < n)) }
    ensures rejects { (bytes : List ℕ) →
        ⟦<Block<MAX> as Form>⟧.rejects e.now bytes ↔ RejectsNumberThen (RejectsTooLong MAX) e.now bytes }
{}

fn lists<T: Form + Drop, const MAX: usize>(x: &Counted<T, MAX>, y: &Counted<T, MAX>, e: &FormError)
    ensures is_form { (bytes : List ℕ) → ⟦<Counted<T, MAX> as Form>⟧.is_form x.now bytes
        ↔ Then (IsVarint (length x.now.items.items)) (AreParts T.is_form x.now.items.items) bytes }
    ensures same { ⟦<Counted<T, MAX> as Form>⟧.same x.now y.now
        ↔ AreSame T.same x.now.items.items y.now.items.items }
    ensures rejects_with { ⟦<Counted<T, MAX> as Form>⟧.rejects_with e.now → T.rejects_with e.now
        ⊎ IsFailed (λ r. IsAnyVarintError r ⊎ IsOutOfMemory r) e.now
        ⊎ ((n : ℕ) × (e.now ≡ TooMany n) × (MAX < n)) }
    ensures rejects { (bytes : List ℕ) → ⟦<Counted<T, MAX> as Form>⟧.rejects e.now bytes
        ↔ RejectsNumberThen (RejectsCounted T.is_form T.rejects MAX) e.now bytes }
{}

fn pairs<A: Form + Drop, B: Form>(x: &Both<A, B>, y: &Both<A, B>, e: &FormError)
    ensures is_form { (bytes : List ℕ) → ⟦<Both<A, B> as Form>⟧.is_form x.now bytes
        ↔ Then (A.is_form x.now.first) (B.is_form x.now.second) bytes }
    ensures same { ⟦<Both<A, B> as Form>⟧.same x.now y.now
        ↔ (A.same x.now.first y.now.first × B.same x.now.second y.now.second) }
    ensures rejects_with { ⟦<Both<A, B> as Form>⟧.rejects_with e.now → A.rejects_with e.now ⊎ B.rejects_with e.now }
    ensures rejects { (bytes : List ℕ) → ⟦<Both<A, B> as Form>⟧.rejects e.now bytes
        ↔ RejectsInTurn A.is_form A.rejects (λ _. B.rejects) e.now bytes }
{}

fn choices<C: Cases>(x: &Choice<C>, y: &Choice<C>, e: &FormError)
    ensures is_form { (bytes : List ℕ) → ⟦<Choice<C> as Form>⟧.is_form x.now bytes
        ↔ Then (IsVarint (C.tag_of x.now.case)) (C.is_value x.now.case) bytes }
    ensures same { ⟦<Choice<C> as Form>⟧.same x.now y.now ↔ C.same x.now.case y.now.case }
    ensures rejects_with { ⟦<Choice<C> as Form>⟧.rejects_with e.now →
        IsFailed IsAnyVarintError e.now ⊎ ((n : ℕ) × C.rejects_with n e.now) }
    ensures rejects { (bytes : List ℕ) →
        ⟦<Choice<C> as Form>⟧.rejects e.now bytes ↔ RejectsNumberThen C.rejects e.now bytes }
{}

fn cases<A: Form, const M: u64, C: Cases>(x: &Tagged<A, M>, y: &Others<C, M>, e: &FormError)
    ensures this_tag { ⟦<Case<A, M, C> as Cases>⟧.tag_of (This x.now) ≡ M }
    ensures other_tag { ⟦<Case<A, M, C> as Cases>⟧.tag_of (Other y.now) ≡ C.tag_of y.now.case }
    ensures this { (bytes : List ℕ) → ⟦<Case<A, M, C> as Cases>⟧.is_value (This x.now) bytes
        ↔ A.is_form x.now.value bytes }
    ensures other { (bytes : List ℕ) → ⟦<Case<A, M, C> as Cases>⟧.is_value (Other y.now) bytes
        ↔ C.is_value y.now.case bytes }
    ensures same_this { ⟦<Case<A, M, C> as Cases>⟧.same (This x.now) (This x.now)
        ↔ A.same x.now.value x.now.value }
    ensures same_other { ⟦<Case<A, M, C> as Cases>⟧.same (Other y.now) (Other y.now)
        ↔ C.same y.now.case y.now.case }
    ensures not_same { ¬ (⟦<Case<A, M, C> as Cases>⟧.same (This x.now) (Other y.now)) }
    ensures rejects_with { (n : ℕ) → ⟦<Case<A, M, C> as Cases>⟧.rejects_with n e.now →
        ((n ≡ M) × A.rejects_with e.now) ⊎ ((n ≢ M) × C.rejects_with n e.now) }
    ensures rejects { (n : ℕ) (bytes : List ℕ) → ⟦<Case<A, M, C> as Cases>⟧.rejects n e.now bytes
        ↔ RejectsCase A.rejects C.rejects M n e.now bytes }
{}

fn last_case<A: Form, const M: u64>(x: &Tagged<A, M>, y: &Tagged<A, M>, e: &FormError)
    ensures tag { ⟦<Tagged<A, M> as Cases>⟧.tag_of x.now ≡ M }
    ensures is_value { (bytes : List ℕ) → ⟦<Tagged<A, M> as Cases>⟧.is_value x.now bytes ↔ A.is_form x.now.value bytes }
    ensures same { ⟦<Tagged<A, M> as Cases>⟧.same x.now y.now ↔ A.same x.now.value y.now.value }
    ensures rejects_with { (n : ℕ) → ⟦<Tagged<A, M> as Cases>⟧.rejects_with n e.now →
        ((n ≡ M) × A.rejects_with e.now) ⊎ ((n ≢ M) × (e.now ≡ OtherTag n)) }
    ensures rejects { (n : ℕ) (bytes : List ℕ) → ⟦<Tagged<A, M> as Cases>⟧.rejects n e.now bytes
        ↔ RejectsCase A.rejects RejectsNoCase M n e.now bytes }
{}
