//! Values: the empty one, what `truncate` cuts off, how they compare, and those of JSON.
ghost use Rattle.std.specs.Prelude.{◌<◌, ◌^◌};

use crate::page::{Bytes, Found, Outcome, Page, Pair, rows};
use multihash::Multihash;
use serde_json::Value;
use std::alloc::{AllocError, Global};
use std::cmp::Ordering;
use std::hash::{DefaultHasher, Hash, Hasher};

/// The multihash of this code and digest, or the empty one if there is none.
pub fn value<const S: usize>(code: u64, digest: &str) -> Multihash<S>
    requires { S < 2 ^ 16 }
{
    Multihash::wrap(code, digest.as_bytes()).unwrap_or_default()
}

fn print_bytes<const S: usize>(page: &mut Page, call: &str, m: &Multihash<S>) {
    if let Ok(bytes) = m.to_bytes(page.alloc) {
        page.row(call, Bytes(&bytes));
    }
}

fn print_scale<const S: usize>(page: &mut Page, call: &str, m: &Multihash<S>) {
    let mut bytes = Vec::new(page.alloc);
    let count = Outcome(m.scale_encode(&mut bytes));
    page.row(call, format_args!("{count}, {}", Bytes(&bytes)));
}

pub fn print_default(page: &mut Page) {
    page.heading("The empty multihash");
    let (empty, other) = (Multihash::<32>::default(), Multihash::<64>::default());
    print_bytes(page, "default::<32>().to_bytes()", &empty);
    page.row(
        "default::<32>().same_as(&default::<64>())",
        empty.same_as(&other),
    );
}

fn hash_of<T: Hash>(x: &T) -> u64 {
    let mut state = DefaultHasher::new();
    x.hash(&mut state);
    state.finish()
}

pub fn compared<const S: usize>(left: Multihash<S>, right: Multihash<S>) -> &'static str {
    match (
        left.cmp(&right),
        left == right,
        hash_of(&left) == hash_of(&right),
    ) {
        (Ordering::Equal, true, true) => "Equal, ==, same hash",
        (Ordering::Less, false, false) => "Less",
        (Ordering::Greater, false, false) => "Greater",
        _ => "no order",
    }
}

fn has_hash_of_pair(code: u64, digest: &str) -> bool {
    hash_of(&value::<64>(code, digest)) == hash_of(&(code, digest.as_bytes()))
}

fn print_inner<const S: usize>(page: &mut Page, call: &str, m: Multihash<S>) {
    let (code, array, size) = m.into_inner();
    page.row(call, format_args!("({code}, {}, {size})", Bytes(&array)));
}

pub fn print_truncated(page: &mut Page) {
    page.heading("m = wrap::<64>(0, \"foobar\")");
    let m = value::<64>(0, "foobar");
    rows!(page;
        "m.size()" => m.size();
        "m.digest()" => Bytes(m.digest());
        "m.truncate(3)" => Pair(m.truncate(3));
        "m.truncate(9)" => Pair(m.truncate(9));
        "m.truncate(2)" => Pair(m.truncate(2));
        "m.truncate(5).truncate(2)" => Pair(m.truncate(5).truncate(2));
        "m.truncate(2).truncate(5)" => Pair(m.truncate(2).truncate(5));
    );
    print_inner(page, "m.truncate(3).into_inner()", m.truncate(3));
    rows!(page;
        "m.resize::<2>()" => Found(m.resize::<2>(), &[]);
        "m.truncate(3) against wrap::<64>(0, \"foo\")" => compared(m.truncate(3), value(0, "foo"));
        "m.truncate(1) against wrap::<64>(0, \"f\")" => compared(m.truncate(1), value(0, "f"));
        "m.truncate(9) against m" => compared(m.truncate(9), m);
        "wrap::<4>(0, \"ab\").truncate(1) against wrap::<4>(0, \"a\")"
            => compared::<4>(value::<4>(0, "ab").truncate(1), value(0, "a"));
        "hash of wrap::<64>(0, \"foo\") is that of (0u64, \"foo\")" => has_hash_of_pair(0, "foo");
        "hash of wrap::<64>(18, \"foobar\") is that of the pair" => has_hash_of_pair(18, "foobar");
    );
}

fn is_same_resized<const R: usize>(m: Multihash<6>) -> bool
    requires { R < 2 ^ 16 }
{
    match m.resize::<R>() {
        Ok(resized) => resized.same_as(&m),
        Err(_) => false,
    }
}

// The bytes that `truncate` removed are in no result.
pub fn print_tail(page: &mut Page) {
    page.heading("m = wrap::<6>(0, \"foobar\").truncate(3)");
    let m = value::<6>(0, "foobar").truncate(3);
    print_bytes(page, "m.to_bytes()", &m);
    print_scale(page, "m.scale_encode()", &m);
    print_json(page, "m.to_value()", &m);
    print_inner(page, "m.into_inner()", m);
    let other = value(0, "fooxyz").truncate(3);
    rows!(page;
        "m against wrap::<6>(0, \"foo\")" => compared(m, value(0, "foo"));
        "m against wrap::<6>(0, \"fooxyz\").truncate(3)" => compared(m, other);
        "m.truncate(5)" => Pair(m.truncate(5));
        "m.resize::<3>()" => Found(m.resize::<3>(), &[]);
        "m.resize::<3>().same_as(&m)" => is_same_resized::<3>(m);
        "m.resize::<300>().same_as(&m)" => is_same_resized::<300>(m);
    );
}

fn print_same(page: &mut Page, code: u64, digest: &str) {
    let other = value::<300>(code, digest);
    let call = format_args!("wrap::<4>(0, \"ab\").same_as(&wrap::<300>{})", Pair(other));
    page.row(call, value::<4>(0, "ab").same_as(&other));
}

pub fn print_same_values(page: &mut Page) {
    page.heading("Values of other capacities");
    print_same(page, 0, "ab");
    print_same(page, 0, "a");
    print_same(page, 1, "ab");
}

// JSON texts, with spaces between them. These are read at the capacity 32.
const TEXTS: &str =
    "[18,32,159,228,204,198,222,22,114,79,58,48,199,232,242,84,243,198,71,25,134,172,177,248,\
    216,207,142,150,206,42,215,219,231,251] [0,256] [0,1.0] \"AA\" [0,-1] [] [0,0,7]";

// These are read at the capacity 2.
const SHORT: &str =
    "null true {} [[0]] [0,\"0\"] [0,null] [0,3,256] [0,3] [0,2,9] [128,0] [256] [0,0,0,0.0] \
    [0,0,18446744073709551616]";

// A value or more of each kind.
const KINDS: &str =
    "null true false 0 7 255 256 18446744073709551615 -1 -9223372036854775808 -0 0.5 1.0 1e300 \
    \"\" \"0\" [] [0] [[]] {} {\"0\":0}";

const SHA256: &[u8] = &[
    159, 228, 204, 198, 222, 22, 114, 79, 58, 48, 199, 232, 242, 84, 243, 198, 71, 25, 134, 172,
    177, 248, 216, 207, 142, 150, 206, 42, 215, 219, 231, 251,
];

fn print_json<const S: usize>(page: &mut Page, call: &str, m: &Multihash<S>) {
    if let Ok(value) = m.to_value(page.alloc) {
        page.row(call, value);
    }
}

fn print_texts<const S: usize>(page: &mut Page, texts: &str)
    requires { S < 2 ^ 16 }
{
    for text in texts.split(' ') {
        if let Ok(value) = Value::from_str(page.alloc, text) {
            let found = Found(Multihash::<S>::from_value(&value), &[]);
            page.row(format_args!("from_value::<{S}>({text})"), found);
        }
    }
}

fn print_if_bytes(page: &mut Page, text: &str) {
    if let Ok(value) = Value::from_str(page.alloc, text) {
        let outcome = Multihash::<255>::from_value(&value);
        if !matches!(&outcome, Err(e) if e.is_not_bytes()) {
            page.row(
                format_args!("from_value::<255>({text})"),
                Found(outcome, &[]),
            );
        }
    }
}

fn long_array(alloc: Global) -> Result<Value, AllocError> {
    let mut long = vec![in alloc; Value::from(0u8), Value::from(0u8)]?;
    for _ in 0..100000 {
        long.push(Value::from(7u8))?;
    }
    Ok(Value::Array(long))
}

pub fn print_json_values(page: &mut Page) {
    page.heading("JSON values");
    if let Ok(m) = Multihash::<32>::wrap(18, SHA256) {
        print_json(page, "wrap::<32>(18, ..).to_value()", &m);
    }
    print_texts::<32>(page, TEXTS);
    print_texts::<2>(page, SHORT);
    if let Ok(value) = long_array(page.alloc) {
        let found = Found(Multihash::<2>::from_value(&value), &[]);
        page.row("from_value::<2>([0,0] and 100000 members 7)", found);
    }
    page.heading("JSON values of each kind, alone and after 0, which are arrays of bytes");
    for kind in KINDS.split(' ') {
        print_if_bytes(page, kind);
        if let Ok(text) = format!(in page.alloc; "[0,{kind}]") {
            print_if_bytes(page, &text);
        }
    }
}
