//! Lists, readers and writers, and the text of each error with the tests of its kind that are true.
ghost use Rattle.std.specs.Prelude.{◌<◌, ◌^◌};

use crate::page::{Bytes, Found, Left, Outcome, Page, Pair, rows};
use crate::values::value;
use fakes::{Cuts, Drip, FailAt, OUT_OF_MEMORY};
use multihash::list::{read_list, write_list};
use multihash::no_std_io::{self, Read, Write};
use multihash::{Error, Multihash};
use serde_json::Value;
use std::fmt::{self, Display};

// The encodings of (0, "A") and (18, "B"), and a byte.
const STREAM: [u8; 7] = [0, 1, 65, 18, 1, 66, 7];

// The multihashes of a list or the text of an error, and what is left of the input.
#[derive(Drop)]
struct List<'a, const S: usize>(Result<Vec<Multihash<S>>, Error>, &'a [u8]);

impl<const S: usize> Display for List<'_, S> {
    fn fmt<W: fmt::Write>(&self, f: &mut fmt::Formatter<W>) -> fmt::Result {
        match &self.0 {
            Ok(list) => {
                f.write_str(if list.is_empty() { "none" } else { "" })?;
                let mut comma = "";
                for m in list {
                    write!(f, "{comma}{}", Pair(*m))?;
                    comma = ", ";
                }
            }
            Err(e) => write!(f, "{e}")?,
        }
        write!(f, "{}", Left(self.1))
    }
}

// From a slice, and, if the result differs, by few bytes per call.
fn print_list(page: &mut Page, input: &[u8], count: usize) {
    let mut left = input;
    let outcome = read_list::<4, _>(page.alloc, &mut left, count);
    let found = page.text_of(List(outcome, left));
    page.row(
        format_args!("read_list::<4>({}, {count})", Bytes(input)),
        &found,
    );
    for most in 1..8 {
        let mut slow = Cuts::new(input, most);
        let outcome = read_list::<4, _>(page.alloc, &mut slow, count);
        page.check(
            "  the list",
            "by few bytes per call",
            List(outcome, slow.left),
            &found,
        );
    }
}

pub fn print_lists(page: &mut Page) {
    page.heading("Lists");
    print_list(page, &STREAM, 2);
    print_list(page, &STREAM, 3);
    print_list(page, &[5], 0);
    print_list(page, &STREAM, usize::MAX / 2);
    print_list(page, &STREAM, usize::MAX);
    let mut left = [0, 1, 65, 0, 2, 66, 67].as_slice();
    let outcome = read_list::<1, _>(page.alloc, &mut left, 2);
    let mut held = Vec::new(page.alloc);
    let written = Outcome(write_list(&[value::<4>(0, "A"), value(18, "B")], &mut held));
    let none = Outcome(write_list::<4, _>(&[], &mut [].as_mut_slice()));
    rows!(page;
        "read_list::<1>([00 01 41 00 02 42 43], 2)" => List(outcome, left);
        "write_list((0, \"A\"), (18, \"B\")) into a vector" => format_args!("{written}, {}", Bytes(&held));
        "write_list(none) into a slice of 0" => none;
    );
}

fn print_exact_reads(page: &mut Page) {
    let (mut left, mut four, mut three) = ([1u8, 2, 3].as_slice(), [9; 4], [0; 3]);
    let (mut slow, mut others) = (Cuts::new(&[1, 2, 3], 2), Cuts::new(&[1, 2, 3], 2));
    let short = Outcome(left.read_exact(&mut four));
    let cut_short = Outcome(slow.read_exact(&mut [0; 4]));
    let cut = Outcome(others.read_exact(&mut three));
    rows!(page;
        "[01 02 03].read_exact([09 09 09 09])" => format_args!("{short}{}", Left(left));
        "  and the buffer then" => Bytes(&four);
        "[01 02 03] by 2 bytes a call, read_exact of 4" => format_args!("{cut_short}{}", Left(slow.left));
        "[01 02 03] by 2 bytes a call, read_exact of 3" => format_args!("{cut}, {}", Bytes(&three));
        "[].read_exact([])" => Outcome([].as_slice().read_exact(&mut []));
    );
}

pub fn print_readers(page: &mut Page) {
    page.heading("Readers");
    print_exact_reads(page);
    let mut left = [0, 2, 9].as_slice();
    let outcome = Multihash::<2>::read(&mut left);
    let mut slow = Cuts::new(&[0, 2, 9], 1);
    let cut = Multihash::<2>::read(&mut slow);
    let mut reader = FailAt::new(Cuts::new(&[0, 1, 65], 1), 1, "link down");
    let failed = Multihash::<4>::read(&mut reader);
    rows!(page;
        "read::<2>([00 02 09])" => Found(outcome, left);
        "  by one byte a call" => Found(cut, slow.left);
        "read::<4>([00 01 41]), its second call fails" => Found(failed, reader.inner.left);
    );
}

// Into a slice of that many bytes.
fn print_write_to_slice<const S: usize>(page: &mut Page, digest: &[u8], capacity: usize)
    requires { S < 2 ^ 16 }
{
    let call = format_args!(
        "wrap::<{S}>(0, {}).write(a slice of {capacity})",
        Bytes(digest)
    );
    let m = Multihash::<S>::wrap(0, digest).unwrap_or_default();
    if let Ok(mut bytes) = vec![in page.alloc; 0; capacity] {
        let outcome = Outcome(m.write(&mut bytes.as_mut_slice()));
        page.row(call, format_args!("{outcome}, {}", Bytes(&bytes)));
    }
}

fn print_slice_writes(page: &mut Page) {
    let mut bytes = [0; 2];
    let mut left = bytes.as_mut_slice();
    let short = Outcome(left.write_all(&[7, 8, 9]));
    let bytes_left = left.len();
    let none = Outcome([].as_mut_slice().write_all(&[]));
    rows!(page;
        "a slice of 2, write_all([07 08 09])" => format_args!("{short}, {}", Bytes(&bytes));
        "  and the bytes left" => bytes_left;
        "a slice of 0, write_all([])" => none;
    );
}

fn print_slow_writes(page: &mut Page) {
    if let Ok(mut slow) = Drip::new(page.alloc, 5, 2) {
        rows!(page;
            "capacity 5, 2 bytes a call, write([01 02 03])" => Outcome(slow.write(&[1, 2, 3]));
            "  then write_all([03 04 05 06])" => Outcome(slow.write_all(&[3, 4, 5, 6]));
            "  and it has" => Bytes(&slow.written);
        );
    }
}

fn print_vector_writes(page: &mut Page) {
    let mut held = Vec::new(page.alloc);
    rows!(page;
        "a vector, write([01 02])" => Outcome(Write::write(&mut held, &[1, 2]));
        "  then write_all([03])" => Outcome(Write::write_all(&mut held, &[3]));
        "  and it has" => Bytes(&held);
    );
}

pub fn print_writers(page: &mut Page) {
    page.heading("Writers");
    print_slice_writes(page);
    print_slow_writes(page);
    print_vector_writes(page);
    rows!(page;
        "<Vec<u8> as Write>::ALLOCATES" => <Vec<u8> as Write>::ALLOCATES;
        "<&mut Vec<u8> as Write>::ALLOCATES" => <&mut Vec<u8> as Write>::ALLOCATES;
        "<&mut [u8] as Write>::ALLOCATES" => <&mut [u8] as Write>::ALLOCATES;
        "<&mut &mut [u8] as Write>::ALLOCATES" => <&mut &mut [u8] as Write>::ALLOCATES;
    );
    print_write_to_slice::<4>(page, b"ABC", 4);
    print_write_to_slice::<4>(page, b"ABC", 5);
    print_write_to_slice::<4>(page, &[], 2);
    print_write_to_slice::<300>(page, &[0; 255], 258);
}

// The names of the tests that are true. A method is no value, so this is a macro.
macro_rules! write_tests {
    ($f:expr, $e:expr; $($test:ident)+) => {
        { $(if $e.$test() { $f.write_str(concat!(" ", stringify!($test)))?; })+ }
    };
}

// The text of an error, and the names of its methods that are true or return a value.
#[derive(Clone, Copy)]
struct Tested<'a>(&'a Error);

impl Display for Tested<'_> {
    fn fmt<W: fmt::Write>(&self, f: &mut fmt::Formatter<W>) -> fmt::Result {
        let e = self.0;
        write!(f, "{e}")?;
        if e.invalid_size().is_some() {
            f.write_str(" invalid_size")?;
        }
        if e.invalid_code().is_some() {
            f.write_str(" invalid_code")?;
        }
        write_tests!(f, e; is_insufficient is_overflow is_not_minimal is_not_bytes);
        if let Some(io) = e.io() {
            f.write_str(" io")?;
            write_tests!(f, io; is_unexpected_eof is_write_zero is_out_of_memory is_other);
        }
        Ok(())
    }
}

fn print_error<T: Drop>(page: &mut Page, call: &str, outcome: Result<T, Error>) {
    if let Err(e) = &outcome {
        page.row(call, Tested(e));
    }
}

macro_rules! errors {
    ($page:expr; $($call:expr => $outcome:expr),+ $(,)?) => { { $(print_error($page, $call, $outcome);)+ } };
}

type Mh = Multihash<0>;

pub fn print_errors(page: &mut Page) {
    page.heading("Errors: the text, and the tests that apply");
    let mut reader = FailAt::new(Cuts::new(&[], 1), 0, OUT_OF_MEMORY);
    let mut other = FailAt::new(Cuts::new(&[], 1), 0, "link down");
    let own: Result<(), _> = Err(Error::from(no_std_io::Error::other("x")));
    errors!(page;
        "wrap::<0>(0, \"A\")" => Mh::wrap(0, b"A"),
        "wrap::<0>(9223372036854775808, [])" => Mh::wrap(1 << 63, &[]),
        "from_bytes::<0>([])" => Mh::from_bytes(&[]),
        "from_bytes::<0>([80*16])" => Mh::from_bytes(&[128; 16]),
        "from_bytes::<0>([80 00])" => Mh::from_bytes(&[128, 0]),
        "from_value::<0>(null)" => Mh::from_value(&Value::Null),
        "from_bytes::<1>([00 01])" => Multihash::<1>::from_bytes(&[0, 1]),
        "default::<0>().write(a slice of 0)" => Mh::default().write(&mut [].as_mut_slice()),
        "a reader's out_of_memory()" => Mh::read(&mut reader),
        "a reader's other(\"link down\")" => Mh::read(&mut other),
        "from(no_std_io::Error::other(\"x\"))" => own,
    );
}
