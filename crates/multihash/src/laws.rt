//! Laws of the definitions: each function does nothing, and its contract is a law.
ghost use Rattle.std.specs.Prelude.{◌≡◌, ℕ, ◌<◌, ◌≤◌, ◌↔◌, List, ◌++◌, length};
ghost use Rattle.serde_json.specs.Data.{Data};
ghost use Rattle.multihash.specs.Bytes.{IsBytes, IsPrefix, ExactlyOne};
ghost use Rattle.multihash.specs.Pair.{Pair, FitsBuffer};
ghost use Rattle.multihash.specs.Varint.{varint_limit};
ghost use Rattle.multihash.specs.Encoding.{IsEncoding};
ghost use Rattle.multihash.specs.Verdict.{Verdict, accepted, HasVerdict, HasWholeVerdict, IsIncomplete};
ghost use Rattle.multihash.specs.Settling.{Settles, IsShortestSettling};
ghost use Rattle.multihash.specs.Streams.{AreConcatenated};
ghost use Rattle.multihash.specs.Scale.{IsScale, HasScaleVerdict};
ghost use Rattle.multihash.specs.Json.{IsJsonList, IsByteArray};

/// Each input has exactly one verdict for each capacity.
pub fn one_verdict()
    ensures read { (S : ℕ) (input : List ℕ) → IsBytes input → ExactlyOne (HasVerdict S input) }
    ensures whole { (S : ℕ) (input : List ℕ) → IsBytes input →
        ExactlyOne (HasWholeVerdict S input) }

    // No two verdicts hold of one list, whether or not its numbers are bytes.
    ensures read_unique { (S : ℕ) (input : List ℕ) (v w : Verdict) →
        HasVerdict S input v → HasVerdict S input w → v ≡ w }
    ensures whole_unique { (S : ℕ) (input : List ℕ) (v w : Verdict) →
        HasWholeVerdict S input v → HasWholeVerdict S input w → v ≡ w }
{}

/// An input settles its verdict unless the verdict is incomplete.
#[tactic(auto, using(crate::proofs::SettlingLemmas::settling))]
pub fn settles()
    ensures exactly { (S : ℕ) (input : List ℕ) (v : Verdict) → HasVerdict S input v →
        (Settles S input ↔ ¬ (IsIncomplete v)) }
    ensures one_shortest { (S : ℕ) (input : List ℕ) (v : Verdict) → HasVerdict S input v →
        ¬ (IsIncomplete v) → ExactlyOne (IsShortestSettling S input) }
    ensures none { (S : ℕ) (input : List ℕ) (v : Verdict) → HasVerdict S input v →
        IsIncomplete v → (front : List ℕ) → IsPrefix front input → ¬ (Settles S front) }
{}

/// A pair has one encoding, and an encoding one pair, whatever follows it.
pub fn prefix_free()
    ensures one_encoding { (p : Pair) → p.code < varint_limit → length p.digest ≤ 255 →
        ExactlyOne (IsEncoding p) }
    ensures same { (p : Pair) (a b : List ℕ) → IsEncoding p a → IsEncoding p b → a ≡ b }
    ensures unique { (p q : Pair) (a b r s : List ℕ) → IsEncoding p a → IsEncoding q b →
        a ++ r ≡ b ++ s → (p ≡ q) × (a ≡ b) × (r ≡ s) }
    ensures begins_no_other { (p q : Pair) (a b : List ℕ) →
        IsEncoding p a → IsEncoding q b → IsPrefix a b → p ≡ q }
    ensures own_verdict { (S : ℕ) (p : Pair) (encoding rest : List ℕ) → IsEncoding p encoding →
        FitsBuffer S p → HasVerdict S (encoding ++ rest) (accepted p) }
    ensures no_other_verdict { (S : ℕ) (p : Pair) (encoding rest : List ℕ) (v : Verdict) →
        IsEncoding p encoding → FitsBuffer S p → HasVerdict S (encoding ++ rest) v →
        v ≡ accepted p }
{}

/// A stream of encodings can be split in one way only.
pub fn split_unique()
    ensures as_many { (ps qs : List Pair) (a b r s : List ℕ) → length ps ≡ length qs →
        AreConcatenated ps a → AreConcatenated qs b → a ++ r ≡ b ++ s → (ps ≡ qs) × (r ≡ s) }
    ensures whole { (ps qs : List Pair) (bytes : List ℕ) →
        AreConcatenated ps bytes → AreConcatenated qs bytes → ps ≡ qs }
    ensures one_stream { (ps : List Pair) (a b : List ℕ) →
        AreConcatenated ps a → AreConcatenated ps b → a ≡ b }
{}

/// A pair has one SCALE encoding, and an encoding one pair, whatever follows it; each input has one verdict.
pub fn scale_unique()
    ensures one_form { (p : Pair) → p.code < varint_limit → length p.digest ≤ 255 →
        ExactlyOne (IsScale p) }
    ensures same { (p : Pair) (a b : List ℕ) → IsScale p a → IsScale p b → a ≡ b }
    ensures unique { (p q : Pair) (a b r s : List ℕ) → IsScale p a → IsScale q b →
        a ++ r ≡ b ++ s → (p ≡ q) × (a ≡ b) × (r ≡ s) }
    ensures one_verdict { (S : ℕ) (input : List ℕ) → IsBytes input →
        ExactlyOne (HasScaleVerdict S input) }
    ensures verdict_unique { (S : ℕ) (input : List ℕ) (v w : Verdict) →
        HasScaleVerdict S input v → HasScaleVerdict S input w → v ≡ w }
    ensures begins_no_other { (p q : Pair) (a b : List ℕ) →
        IsScale p a → IsScale q b → IsPrefix a b → p ≡ q }
    ensures own_verdict { (S : ℕ) (p : Pair) (bytes rest : List ℕ) → IsScale p bytes →
        FitsBuffer S p → HasScaleVerdict S (bytes ++ rest) (accepted p) }
{}

/// A JSON value lists at most one pair.
pub fn json_unique()
    ensures same { (p q : Pair) (value : Data) →
        IsJsonList p value → IsJsonList q value → p ≡ q }
    ensures byte_array { (p : Pair) (value : Data) → IsBytes p.digest → IsJsonList p value →
        ExactlyOne (IsByteArray value) }
    ensures own_verdict { (S : ℕ) (p : Pair) (value : Data) (bytes : List ℕ) → IsJsonList p value →
        FitsBuffer S p → IsByteArray value bytes → HasWholeVerdict S bytes (accepted p) }
    ensures no_other_verdict { (S : ℕ) (p : Pair) (value : Data) (bytes : List ℕ) (v : Verdict) →
        IsJsonList p value → FitsBuffer S p → IsByteArray value bytes → HasWholeVerdict S bytes v →
        v ≡ accepted p }
{}
