//! Formats made of parts of the crate `form`. Nothing here has a proof by hand.
ghost use Rattle.std.specs.Prelude.{◌≡◌, ◌≢◌, ◌<◌, ◌⊎◌, ℕ, List, [], ◌++◌, length, Some, OnOk, OnErr, IfOk, IfErr, MatchResult, IsErrAnd};
ghost use Rattle.std.specs.Int.{bytes_high_first};
ghost use Rattle.multihash.specs.Bytes.{IsStrictPrefix};
ghost use Rattle.multihash.specs.Varint.{IsVarint};
ghost use Rattle.multihash.specs.Streams.{AreParts};
ghost use Rattle.multihash.specs.Writing.{CountsWriterFailures, IsWriterFaultOrFull};
ghost use Rattle.multihash.specs.Refusal.{IsIo, IsOutOfMemory, IsReaderError};
ghost use Rattle.form.specs.Form.{Then, AreSame, AppendsSome, AppendsPrefixOfSome};
ghost use Rattle.form.specs.FormError.{IsFailed, IsTruncated};
ghost use Rattle.form.specs.Rejecting.{IsReadError, ReadStops};
ghost use Rattle.form.specs.Stream.{rest_from, AppendsUpTo, AppendsSame};
ghost use Rattle.form.specs.declared.error.FormError.TheVariants.{Trailing};

use form::{
    BigEndian, Block, Both, Bytes, Case, Choice, Counted, Form, FormError, LittleEndian, Number,
    Others, Stream, Tag, Tagged,
};
use multihash::Multihash;
use multihash::no_std_io::{Read, Write};
use std::alloc::Global;

/// A content identifier: of version 1 with a codec and a multihash, or of version 0, a bare multihash of
/// SHA2-256. So the first number is the version 1 or the code 0x12, which the length 32 and the digest follow.
pub type Identifier = Choice<
    Case<Both<Number, Multihash<64>>, 1, Tagged<Both<Tag<32>, Bytes<32>>, 0x12>>,
>;

/// An entry of a log: its number, the multihash of its block, and the block.
pub type LogEntry = Both<Number, Both<Multihash<64>, Block<1_000_000>>>;

/// A node of a Merkle DAG: its version, its links to other nodes, and its content.
pub type Node = Both<Number, Both<Counted<Multihash<64>, 1000>, Block<1_000_000>>>;

/// A record of a peer: its identifier, and a block or none.
pub type PeerRecord = Both<Multihash<42>, Counted<Block<1000>, 1>>;

/// A part of a multiaddr: an IP address of version 4, a port of TCP, a name, a port of UDP, or a peer identifier.
pub type AddressPart = Choice<
    Case<
        Bytes<4>,
        4,
        Case<
            BigEndian<2>,
            6,
            Case<Block<253>, 53, Case<BigEndian<2>, 273, Tagged<Block<42>, 421>>>,
        >,
    >,
>;

/// The header of a CAR file of version 2, after its pragma: characteristics, where the data begins, its size, and where
/// the index begins.
pub type CarHeader = Both<Bytes<16>, Both<LittleEndian<8>, Both<LittleEndian<8>, LittleEndian<8>>>>;

/// Returns the part of a multiaddr that is a port of TCP.
pub fn tcp(port: u16) -> AddressPart
    ensures { (bytes : List ℕ) → Then (IsVarint 6) (λ rest. rest ≡ bytes_high_first 2 port) bytes →
        ⟦<AddressPart as Form>⟧.is_form result bytes }
{
    let value = BigEndian { value: port as u64 };
    let case = Case::This(Tagged { value });
    let case = Case::Other(Others { case });
    Choice { case }
}

/// Reads the parts of the multiaddr that is the whole of `bytes`.
///
/// # Errors
///
/// Those of [`form::all_from_bytes`].
pub fn read_address(alloc: Global, bytes: &[u8]) -> Result<Vec<AddressPart>, FormError>
    ensures ok { IfOk result (λ list. AreParts ⟦<AddressPart as Form>⟧.is_form list.items bytes.now) }
    ensures found { (xs : List _) → AreParts ⟦<AddressPart as Form>⟧.is_form xs bytes.now →
        MatchResult result (λ list. AreSame ⟦<AddressPart as Form>⟧.same list.items xs) (IsFailed IsOutOfMemory) }
    ensures err { IfErr result (λ e. (xs : List _) × (front : List ℕ) × (rest : List ℕ)
        × AreParts ⟦<AddressPart as Form>⟧.is_form xs front × (bytes.now ≡ front ++ rest)
        × IsReadError ⟦<AddressPart as Form>⟧.is_form ⟦<AddressPart as Form>⟧.rejects e rest) }
{
    form::all_from_bytes::<AddressPart>(alloc, bytes)
}

/// Reads the identifier that is the whole of `bytes`.
///
/// # Errors
///
/// Those of [`form::from_bytes`].
pub fn read_identifier(alloc: Global, bytes: &[u8]) -> Result<Identifier, FormError>
    ensures ok { IfOk result (λ x. ⟦<Identifier as Form>⟧.is_form x bytes.now) }
    ensures found { (x : _) → ⟦<Identifier as Form>⟧.is_form x bytes.now →
        MatchResult result (λ y. ⟦<Identifier as Form>⟧.same y x) (IsFailed IsOutOfMemory) }
    ensures truncated { (x : _) (whole : List ℕ) → ⟦<Identifier as Form>⟧.is_form x whole →
        IsStrictPrefix bytes.now whole →
        IsErrAnd result (λ e. IsFailed IsTruncated e ⊎ IsFailed IsOutOfMemory e) }
    ensures trailing { (x : _) (front more : List ℕ) → ⟦<Identifier as Form>⟧.is_form x front → more ≢ [] →
        bytes.now ≡ front ++ more →
        IsErrAnd result (λ e. (e ≡ Trailing (length more)) ⊎ IsFailed IsOutOfMemory e) }
    ensures rejected { (e : FormError) (front more : List ℕ) → ⟦<Identifier as Form>⟧.rejects e front →
        bytes.now ≡ front ++ more → IsErrAnd result (λ f. (f ≡ e) ⊎ IsFailed IsOutOfMemory f) }
{
    form::from_bytes::<Identifier>(alloc, bytes)
}

/// Returns the numbers of the entries of a log.
///
/// # Errors
///
/// Those of [`Stream::read_next`], and out of memory.
pub fn entry_numbers(alloc: Global, log: &[u8]) -> Result<Vec<u64>, FormError> {
    let mut numbers = Vec::new(alloc);
    let mut entries = Stream::new(log);
    for _ in 0..log.len() {
        let Some(entry) = entries.read_next::<LogEntry>(alloc)? else {
            return Ok(numbers);
        };
        numbers.push(entry.first.value)?;
    }
    Ok(numbers)
}

/// Appends `n` entries of a log to `list`, or all that come before the end of the log if these are fewer.
///
/// # Errors
///
/// Those of [`Stream::read_up_to`]. The entries before the error have been appended.
pub fn read_entries<R: Read>(
    alloc: Global,
    log: &mut Stream<R>,
    n: usize,
    list: &mut Vec<LogEntry>,
) -> Result<(), FormError>
    ensures ok { OnOk result (AppendsUpTo ⟦<LogEntry as Form>⟧.is_form n list.old.items list.new.items
        (rest_from log.old.ahead (R.rest log.old.inner)) (rest_from log.new.ahead (R.rest log.new.inner))) }
    ensures found { (xs : List _) (bytes more : List ℕ) → AreParts ⟦<LogEntry as Form>⟧.is_form xs bytes →
        rest_from log.old.ahead (R.rest log.old.inner) ≡ Some (bytes ++ more) →
        (length xs ≡ n) ⊎ ((length xs < n) × (more ≡ [])) → R.failures log.new.inner ≡ R.failures log.old.inner →
        MatchResult result (λ _. AppendsSame ⟦<LogEntry as Form>⟧.same xs list.old.items list.new.items
        × (rest_from log.new.ahead (R.rest log.new.inner) ≡ Some more)) (IsFailed IsOutOfMemory) }
{
    log.read_up_to::<LogEntry>(alloc, n, list)
}

/// Writes a node to a writer, and reads one from a reader whose known input is what was appended and then
/// `more`: it is the same node, and `more` is left. The only errors are out of memory, those of the writer and
/// those of the reader.
///
/// # Errors
///
/// Those of [`Form::write`] and [`Form::read`].
pub fn node_through<W: Write, R: Read>(
    alloc: Global,
    node: &Node,
    w: &mut W,
    r: &mut R,
) -> Result<Node, FormError>
    ensures { (more : List ℕ) →
        ((bytes : List ℕ) → W.appended w.old bytes w.new → R.rest r.old ≡ Some (bytes ++ more)) →
        MatchResult result (λ y. ⟦<Node as Form>⟧.same y node.now × (R.rest r.new ≡ Some more))
        (λ e. IsFailed IsOutOfMemory e
        ⊎ IsFailed (IsIo (IsWriterFaultOrFull W.allocates (W.failures w.old) (W.failures w.new)
        (W.full w.new))) e
        ⊎ ((R.failures r.old < R.failures r.new) × IsFailed IsReaderError e)) }
{
    form::laws::through::<Node, W, R>(alloc, node, w, r)
}

/// Reads the record that comes next.
///
/// # Errors
///
/// Those of [`Form::read`].
pub fn read_record<R: Read>(alloc: Global, r: &mut R) -> Result<PeerRecord, FormError>
    ensures found { (x : _) (bytes more : List ℕ) → ⟦<PeerRecord as Form>⟧.is_form x bytes →
        R.rest r.old ≡ Some (bytes ++ more) → R.failures r.new ≡ R.failures r.old →
        MatchResult result (λ y. ⟦<PeerRecord as Form>⟧.same y x × (R.rest r.new ≡ Some more))
        (IsFailed IsOutOfMemory) }
    ensures truncated { (x : _) (bytes part : List ℕ) → ⟦<PeerRecord as Form>⟧.is_form x bytes →
        IsStrictPrefix part bytes → R.rest r.old ≡ Some part → R.failures r.new ≡ R.failures r.old →
        IsErrAnd result (λ e. IsFailed IsTruncated e ⊎ IsFailed IsOutOfMemory e) }
    ensures err { IfErr result (λ e. ReadStops ⟦<PeerRecord as Form>⟧.is_form ⟦<PeerRecord as Form>⟧.rejects
        (R.failures r.old) (R.failures r.new) e (R.rest r.old) (R.rest r.new)) }
{
    form::read::<PeerRecord, R>(alloc, r)
}
