//! The JSON encoding: the bytes of the binary encoding as an array of whole numbers.
ghost use Rattle.std.specs.Prelude.{◌≡◌, ◌<◌, ℕ, List, length, Some, IfOk, IfErr, OnOk, OnErr, IsOk, IsErrAnd, MatchOption, true};
ghost use Rattle.std.specs.List.{list_all};
ghost use Rattle.serde_json.specs.View.{view};
ghost use Rattle.multihash.specs.Encoding.{IsEncoding};
ghost use Rattle.multihash.specs.Json.{IsByteArray, IsJsonList};
ghost use Rattle.multihash.specs.Lemmas.{AppendsMembers-none, AppendsMembers-concatenated};
ghost use Rattle.multihash.specs.Private.{byte_of_data, member_bytes, is_byte, AppendsMembers};
ghost use Rattle.multihash.specs.Verdict.{Verdict, HasWholeVerdict};
ghost use Rattle.multihash.specs.Fault.{IsOutOfMemoryFault};
ghost use Rattle.multihash.specs.Refusal.{IsNotBytes, IsOutOfMemory};
ghost use Rattle.multihash.specs.Outcome.{IsResultOf};
ghost use Rattle.multihash.specs.Multihash.{pair_of};

use crate::no_std_io::{self, Read, Write};
use crate::{Error, Multihash};
use serde_json::Value;
use std::alloc::Global;

impl<const S: usize> Multihash<S> {
    /// Returns the array of the encoding's bytes as whole numbers, in order: at most 266 members, made
    /// by one allocation.
    ///
    /// # Errors
    ///
    /// [`Error::io`] if out of memory.
    pub fn to_value(&self, alloc: Global) -> Result<Value, Error>
        ensures ok { IfOk result (λ value. IsJsonList (pair_of self.now) (view value)) }
        ensures array { IfOk result (λ value. (bytes : List ℕ) × IsByteArray (view value) bytes) }
        ensures memory { IfErr result IsOutOfMemory }
    {
        let members = Vec::with_capacity(alloc, self.encoded_len())?;
        let mut writer = MemberWriter { members };
        self.write(&mut writer)?;
        Ok(Value::Array(writer.members))
    }

    /// Reads the multihash whose encoding is listed by an array of byte numbers, as
    /// [`Multihash::from_bytes`] reads it from the bytes. It checks all members first, and allocates
    /// nothing.
    ///
    /// # Errors
    ///
    /// - [`Error::is_not_bytes`] unless the value is an array whose members are all held as whole
    ///   numbers from 0 to 255 (`1.0` is not).
    /// - Otherwise the errors of [`Multihash::from_bytes`].
    pub fn from_value(value: &Value) -> Result<Self, Error>
        ensures verdict { (bytes : List ℕ) → IsByteArray (view value.now) bytes →
            (v : Verdict) × HasWholeVerdict S bytes v × IsResultOf result v }
        ensures ok { IfOk result (λ m. (bytes : List ℕ) × IsByteArray (view value.now) bytes
            × IsEncoding (pair_of m) bytes) }
        ensures not_bytes { ((bytes : List ℕ) → ¬ (IsByteArray (view value.now) bytes)) →
            IsErrAnd result IsNotBytes }
    {
        let Some(members) = byte_members(value) else {
            return Err(Error::not_bytes());
        };
        let mut left = ByteMembers { left: members };
        let multihash = Self::read(&mut left)?;
        if !left.left.is_empty() {
            return Err(Error::from_size(left.left.len() as u64));
        }
        Ok(multihash)
    }
}

// Appends bytes as members of an array.
#[derive(Drop)]
struct MemberWriter {
    members: Vec<Value>,
}

impl Write for MemberWriter {
    const ALLOCATES: bool = true;

    ghost allocates = { true };

    ghost appended = { λ old bytes new. AppendsMembers old.members.items bytes new.members.items };

    ghost full = { λ _. ⊥ };

    ghost failures = { λ _. 0 };

    ghost appends_nothing = { λ w. AppendsMembers-none w.members.items };

    ghost appends_concatenated = { λ a b c x y first second.
        AppendsMembers-concatenated a.members.items b.members.items c.members.items x y first second };

    fn write(&mut self, buf: &[u8]) -> Result<usize, no_std_io::Error> {
        push_members(&mut self.members, buf)?;
        Ok(buf.len())
    }

    fn write_all(&mut self, buf: &[u8]) -> Result<(), no_std_io::Error> {
        push_members(&mut self.members, buf)
    }
}

// Appends bytes as members, or none of them if out of memory.
fn push_members(members: &mut Vec<Value>, bytes: &[u8]) -> Result<(), no_std_io::Error>
    ensures ok { OnOk result (AppendsMembers members.old.items bytes.now members.new.items) }
    ensures empty { length bytes.now ≡ 0 → IsOk result }
    ensures err { OnErr result (members.new.items ≡ members.old.items) }
    ensures memory { IfErr result IsOutOfMemoryFault }
{
    if members.reserve(bytes.len()).is_err() {
        return Err(no_std_io::Error::out_of_memory());
    }
    for byte in bytes {
        members.push_reserved(Value::from(*byte));
    }
    Ok(())
}

// The members of an array of byte numbers, or none for any other value.
fn byte_members(value: &Value) -> Option<&[Value]>
    ensures { MatchOption result ((bytes : List ℕ) → ¬ (IsByteArray (view value.now) bytes))
        (λ members. (list_all is_byte members.now ≡ true)
        × IsByteArray (view value.now) (member_bytes members.now)) }
{
    let members = value.as_array()?;
    if are_bytes(members) {
        Some(members.as_slice())
    } else {
        None
    }
}

// Whether each member is a byte.
fn are_bytes(members: &[Value]) -> bool
    ensures { result ≡ list_all is_byte members.now }
{
    members.iter().all(|member| byte_of(member).is_some())
}

// The byte that a member is, if it is a whole number from 0 to 255.
fn byte_of(member: &Value) -> Option<u8>
    ensures { result ≡ byte_of_data (view member.now) }
{
    u8::try_from(member.as_u64()?).ok()
}

// Reads the members of an array of byte numbers as bytes. A call of `read` reads one.
#[derive(Drop)]
struct ByteMembers<'a> {
    left: &'a [Value],
    ghost are_bytes: { list_all is_byte left.now ≡ true },
}

impl Read for ByteMembers<'_> {
    ghost rest = { λ m. Some (member_bytes m.left.now) };

    ghost failures = { λ _. 0 };

    #[tactic(auto, using(crate::proofs::JsonLemmas::first_member))]
    fn read(&mut self, buf: &mut [u8]) -> Result<usize, no_std_io::Error> {
        if buf.is_empty() {
            return Ok(0);
        }
        let Some((first, left)) = self.left.split_first() else {
            return Ok(0);
        };
        let Some(byte) = byte_of(first) else {
            return Ok(0);
        };
        buf[0] = byte;
        self.left = left;
        Ok(1)
    }

    fn read_exact(&mut self, buf: &mut [u8]) -> Result<(), no_std_io::Error> {
        if self.left.len() < buf.len() {
            return Err(no_std_io::Error::unexpected_eof());
        }
        let (these, left) = self.left.split_at(buf.len());
        put_bytes(these, buf);
        self.left = left;
        Ok(())
    }
}

// Copies the members' bytes into the buffer, which has as many bytes.
fn put_bytes(members: &[Value], buffer: &mut [u8])
    requires bytes { list_all is_byte members.now ≡ true }
    requires count { length members.now ≡ length buffer.old }
    ensures { buffer.new ≡ member_bytes members.now }
{
    for (at, member) in members.iter().enumerate() {
        if let Some(byte) = byte_of(member) {
            buffer[at] = byte;
        }
    }
}
