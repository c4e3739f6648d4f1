//! Memory: that it suffices for usual lengths and codes, with exactly the promised capacity; and
//! allocations that fail. `checks/rt.t` counts those of each test `allocating_…`, and makes each fail in
//! turn: the call then has to return out of memory, and the test fails with `FAILED`.
ghost use Rattle.std.specs.Prelude.{◌<◌, ◌^◌};

use crate::expect::{check, check_eq, expect_ok, is_passed_on};
use examples::content::hash_of;
use examples::encodings::{json, scale, there_and_back};
use examples::parts::LogEntry;
use fakes::OUT_OF_MEMORY;
use form::{Block, Counted, FormError, Stream};
use multihash::list::{read_list, write_list};
use multihash::no_std_io::Write;
use multihash::{Error, Multihash};
use serde_json::Value;
use std::alloc::Global;
use std::hash::{DefaultHasher, Hash};
use std::process::Abort;
use std::test::Fail;
use theorems::list_through;

fn capacity_of(value: &Value) -> usize {
    match value {
        Value::Array(members) => members.capacity(),
        _ => 0,
    }
}

// A vector and a JSON array have exactly the capacity that they need, for sizes of one and of two bytes.
#[test]
fn no_more_memory_than_needed_is_kept(rt: HostRuntime) {
    let alloc = rt.alloc();
    for len in [0, 1, 32, 64, 127, 128, 255] {
        let m = expect_ok!(&rt; Multihash::<255>::wrap(1 << 20, &[65; 255][..len]));
        let size = m.encoded_len();
        check_eq!(&rt; expect_ok!(&rt; m.to_bytes(alloc)).capacity(), size);
        check_eq!(&rt; capacity_of(&expect_ok!(&rt; m.to_value(alloc))), size);
        check!(&rt; expect_ok!(&rt; m.clone()) == m, len);
    }
}

const FAILED: &str = "an allocation failed";

// A result that is an error has to be out of memory.
fn expect_made<T>(rt: &impl Abort, outcome: &Result<T, Error>) -> Result<(), Fail> {
    if outcome.is_ok() {
        return Ok(());
    }
    check!(rt; is_passed_on(outcome, OUT_OF_MEMORY));
    Err(FAILED)?
}

// Errors of a format are not looked at.
fn of_form<T: Drop>(outcome: Result<T, FormError>) -> Result<(), Error> {
    match outcome {
        Ok(_value) => Ok(()),
        Err(FormError::Failed(e)) => Err(e),
        Err(_e) => Ok(()),
    }
}

// Each encoding is one allocation.
fn expect_encodings<const S: usize>(rt: &impl Abort, alloc: Global, code: u64) -> Result<(), Fail>
    requires { S < 2 ^ 16 }
{
    for len in [0, 1, 32, 64, 127, 128, 255] {
        let digest = [65; 255].get(..S.min(len)).unwrap_or(&[]);
        let m = expect_ok!(rt; Multihash::<S>::wrap(code, digest));
        expect_made(rt, &m.to_bytes(alloc))?;
        expect_made(rt, &m.to_value(alloc))?;
    }
    Ok(())
}

#[test]
fn allocating_encodings(rt: HostRuntime) -> Result<(), Fail> {
    expect_encodings::<64>(&rt, rt.alloc(), 1 << 20)?;
    expect_encodings::<255>(&rt, rt.alloc(), 300)
}

// The capacity is the one allocation. If it fails, nothing was read.
#[test]
fn allocating_read_of_lists(rt: HostRuntime) -> Result<(), Fail> {
    for count in [1, 6, 300] {
        let mut left = [0u8; 600].as_slice();
        let outcome = read_list::<64, _>(rt.alloc(), &mut left, count);
        check!(&rt; outcome.is_ok() || left.len() == 600);
        expect_made(&rt, &outcome)?;
    }
    Ok(())
}

// What was written before an allocation failed is a prefix.
#[test]
fn allocating_writes(rt: HostRuntime) -> Result<(), Fail> {
    let alloc = rt.alloc();
    let rt = &rt;
    let long = expect_ok!(rt; Multihash::<200>::wrap(300, &[65; 200]));
    let (mut whole, mut scale_whole) = ([0u8; 408], [0u8; 209]);
    expect_ok!(rt; write_list(&[long, long], &mut whole.as_mut_slice()));
    expect_ok!(rt; long.scale_encode(&mut scale_whole.as_mut_slice()));
    let (mut binary, mut scale, mut list) = (Vec::new(alloc), Vec::new(alloc), Vec::new(alloc));
    let outcome = long.write(&mut binary);
    check!(rt; whole.starts_with(&binary));
    expect_made(rt, &outcome)?;
    let outcome = long.scale_encode(&mut scale);
    check!(rt; scale_whole.starts_with(&scale));
    expect_made(rt, &outcome)?;
    let outcome = write_list(&[long, long], &mut list);
    check!(rt; whole.starts_with(&list));
    expect_made(rt, &outcome)
}

// A vector whose allocation fails is unchanged.
#[test]
fn allocating_write_of_a_vector(rt: HostRuntime) -> Result<(), Fail> {
    for is_whole in [false, true] {
        let mut vector = Vec::new(rt.alloc());
        let is_written = if is_whole {
            vector.write_all(&[1, 2, 3]).is_ok()
        } else {
            vector.write(&[1, 2, 3]).is_ok()
        };
        if !is_written {
            check!(&rt; vector.is_empty() && vector.capacity() == 0);
            return Err(FAILED)?;
        }
    }
    Ok(())
}

// More than a new vector has capacity for.
#[test]
fn allocating_blocks(rt: HostRuntime) -> Result<(), Fail> {
    let mut entry = [0u8; 10005];
    entry[3..5].copy_from_slice(&[0x90, 0x4e]);
    let mut block = &entry[3..];
    let read = form::read::<Block<10000>, &[u8]>(rt.alloc(), &mut block);
    expect_made(&rt, &of_form(read))?;
    let read = form::read::<LogEntry, &[u8]>(rt.alloc(), &mut entry.as_slice());
    expect_made(&rt, &of_form(read))
}

// A head that claims 2^62 bytes, of which 10000 arrive: memory grows as it does for a block of that length.
#[test]
fn allocating_claimed_length(rt: HostRuntime) -> Result<(), Fail> {
    let mut claimed = [128u8; 10009];
    claimed[8] = 64;
    let read = form::read::<Block<{ usize::MAX }>, &[u8]>(rt.alloc(), &mut claimed.as_slice());
    let outcome = of_form(read);
    if is_passed_on(&outcome, "failed to fill whole buffer") {
        return Ok(());
    }
    expect_made(&rt, &outcome)
}

#[test]
fn allocating_forms(rt: HostRuntime) -> Result<(), Fail> {
    let alloc = rt.alloc();
    let mut counted = [0u8; 19];
    counted[0] = 9;
    let mut list: Vec<Multihash<4>> = Vec::new(alloc);
    let mut stream = Stream::new(&counted[1..]);
    let read = stream.read_up_to(alloc, usize::MAX, &mut list);
    expect_made(&rt, &of_form(read))?;
    let mut left = counted.as_slice();
    let read = form::read::<Counted<Multihash<4>, 9>, &[u8]>(alloc, &mut left);
    expect_made(&rt, &of_form(read))
}

#[test]
fn allocating_examples(rt: HostRuntime) -> Result<(), Fail> {
    let alloc = rt.alloc();
    let rt = &rt;
    let (m, nine) = (hash_of::<32>(b"a"), [Multihash::<4>::default(); 9]);
    let (input, mut out) = ([0u8; 18], [0u8; 36]);
    let (mut left, mut room) = (input.as_slice(), out.as_mut_slice());
    expect_made(
        rt,
        &list_through::<4, 4, _, _>(alloc, &nine, &mut room, &mut left),
    )?;
    expect_made(rt, &there_and_back(alloc, m.digest()))?;
    expect_made(rt, &scale(alloc, &m))?;
    expect_made(rt, &json(alloc, &m))
}

fn expect_read<const S: usize>(
    rt: &impl Abort,
    alloc: Global,
    m: &Multihash<S>,
    bytes: &[u8],
    mut scale: &[u8],
)
    requires { S < 2 ^ 16 }
{
    let encoding = bytes.get(..m.encoded_len()).unwrap_or(&[]);
    check!(rt; expect_ok!(rt; Multihash::<S>::from_bytes(encoding)) == *m);
    let mut left = bytes;
    check!(rt; expect_ok!(rt; Multihash::<S>::read(&mut left)).same_as(m));
    check!(rt; expect_ok!(rt; Multihash::<S>::scale_decode(&mut scale)) == *m);
    check!(rt; expect_ok!(rt; read_list::<S, _>(alloc, &mut left, 0)).is_empty());
}

// Calls over slices that no contract gives an allocator.
fn expect_without_memory<const S: usize>(rt: &impl Abort, alloc: Global, code: u64)
    requires { S < 2 ^ 16 }
{
    let m = expect_ok!(rt; Multihash::<S>::wrap(code, &[65; 32]));
    let (mut bytes, mut scale) = ([0u8; 84], [0u8; 41]);
    let mut room = bytes.as_mut_slice();
    check!(rt; m.write(&mut room).is_ok());
    check!(rt; write_list(&[m], &mut room).is_ok());
    check!(rt; m.scale_encode(&mut scale.as_mut_slice()).is_ok());
    expect_read(rt, alloc, &m, &bytes, &scale);
    check!(rt; expect_ok!(rt; m.resize::<32>()).truncate(4) < m.resize::<32>().unwrap_or_default());
    check!(rt; m.code() == code && m.size() == 32 && m.digest().len() == 32);
    check!(rt; m != Multihash::default() && m.into_inner().2 == 32);
    m.hash(&mut DefaultHasher::new());
}

#[test]
fn calls_over_slices_need_no_memory(rt: HostRuntime) {
    for code in [18, 30, u64::MAX / 2] {
        expect_without_memory::<32>(&rt, rt.alloc(), code);
        expect_without_memory::<300>(&rt, rt.alloc(), code);
    }
    let empty = Value::Array(Vec::new(rt.alloc()));
    check!(&rt; Multihash::<4>::from_value(&empty).is_err_and(|e| e.is_insufficient()));
    check!(&rt; Multihash::<4>::from_value(&Value::Null).is_err_and(|e| e.is_not_bytes()));
    check!(&rt; Multihash::<4>::wrap(0, &[65; 5]).is_err_and(|e| e.invalid_size() == Some(5)));
}
