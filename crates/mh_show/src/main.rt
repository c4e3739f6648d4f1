//! Reads one line of hexadecimal, and shows the multihash that it encodes: its code, its size and its digest,
//! each on a line. Arguments are ignored.
#![tactic(auto)]

mod run;
mod show;

use std::process::ExitCode;

fn main(rt: HostRuntime) -> ExitCode {
    run::exit_code(
        rt.alloc(),
        &mut rt.stdin(),
        &mut rt.stdout(),
        &mut rt.stderr(),
    )
}
