//! Prints calls of the library with their results. Then, of `verdicts.tsv` and `values.tsv`, which are files in the
//! current folder, it prints each line that differs from the library's results, with these results. `stdout` says what
//! has to be printed: it was written from the rules of docs/FORMAT.md, and not by this program.
//!
//! Bytes are in hexadecimal, and `41*200` is 200 times 41; a few letters are text. A multihash is its code and
//! its digest. What a reader has left follows the result, unless nothing is left, and so do the bytes that were written.
#![tactic(auto)]

mod lists;
mod page;
mod streams;
mod values;

use page::Page;
use std::fs;
use std::io::Result;

fn main(rt: HostRuntime) -> Result<()> {
    let verdicts = fs::read_to_string(&rt, "verdicts.tsv")?;
    let values = fs::read_to_string(&rt, "values.tsv")?;
    let mut page = Page::new(rt.alloc());
    values::print_default(&mut page);
    values::print_truncated(&mut page);
    values::print_tail(&mut page);
    values::print_same_values(&mut page);
    values::print_json_values(&mut page);
    streams::print_lists(&mut page);
    streams::print_readers(&mut page);
    streams::print_writers(&mut page);
    streams::print_errors(&mut page);
    lists::check_lines(&mut page, &verdicts, &values);
    print!(rt; "{}", page.finish()?)
}
