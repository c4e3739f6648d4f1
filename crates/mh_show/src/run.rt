//! What `main` does, over any input and outputs, so that it can be proved, and tested in memory.
ghost use Rattle.std.specs.Prelude.{◌≡◌, ◌≤◌, ◌<◌, ◌⊎◌, length, take, IfOk, IfErr, OnOk, OnErr};
ghost use Rattle.std.specs.Io.KnownBytes.{Appends, Consumes as ReadsKnown, IsAtEnd};
ghost use Rattle.std.specs.Process.{exit_status};
ghost use Rattle.mh_show.specs.Run.{ReadsWhole, AppendsPrefixOf, ShowsInput, EndsRun, ReportsError};

#[cfg(test)]
mod tests;

use crate::show::{ShowError, show};
use std::alloc::{AllocError, Global};
use std::fmt;
use std::io::{Read, Write};
use std::process::ExitCode;

// The greatest length of an input, in bytes.
const MOST_INPUT: usize = 65536;

// The error that ended a run.
#[derive(Debug, Drop)]
enum RunError {
    Input,
    NotShown(ShowError),
    Output,
}

impl fmt::Display for RunError {
    ghost use Rattle.std.specs.Prelude.{Some};
    ghost use Rattle.mh_show.specs.Run.{run_error_text};

    ghost output = { λ e. Some (run_error_text e) };

    ghost styled_output = { λ e _. Some (run_error_text e) };

    fn fmt<W: fmt::Write>(&self, f: &mut fmt::Formatter<W>) -> fmt::Result {
        match self {
            RunError::Input => f.write_str("input not read"),
            RunError::NotShown(e) => fmt::Display::fmt(e, f),
            RunError::Output => f.write_str("output not written"),
        }
    }
}

impl From<ShowError> for RunError {
    ghost use Rattle.mh_show.specs.declared.run.RunError.{RunError};

    ghost from_gives = { λ cause e. e ≡ RunError.NotShown cause };

    fn from(e: ShowError) -> Self {
        RunError::NotShown(e)
    }
}

impl From<AllocError> for RunError {
    ghost use Rattle.mh_show.specs.declared.run.RunError.{RunError};
    ghost use Rattle.mh_show.specs.declared.show.ShowError.{ShowError};

    ghost from_gives = { λ _ e. e ≡ RunError.NotShown ShowError.Memory };

    fn from(_e: AllocError) -> Self {
        RunError::NotShown(ShowError::Memory)
    }
}

/// Reads the input to its end, and writes to `out` the three lines that [`show`] returns for it. The status
/// is 0, or 1 after an error: then a line with the reason is written to `err`, and nothing to `out`, unless
/// writing to it failed.
///
/// An input of more than 65536 bytes is rejected. Any error of a read or a write is a failure, also an
/// interruption, and so is a write of zero bytes. The first error is reported. An error in writing to `err`
/// changes nothing, and if there is no memory for its line, the line says `out of memory`. Nothing is
/// flushed, so the outputs must have no buffer, as the standard ones have none.
pub fn run<I: Read, O: Write, E: Write>(
    alloc: Global,
    input: &mut I,
    out: &mut O,
    err: &mut E,
) -> u8
    // No contract can say when a reader or a writer fails, nor when an allocation does.
    ensures status { result ≤ 1 }
    ensures shown { result ≡ 0 → ShowsInput (I.remaining input.old) (I.remaining input.new)
        (O.contents out.old) (O.contents out.new) }
    ensures quiet { result ≡ 0 → err.new ≡ err.old }
    ensures told { result ≡ 1 → (e : RunError) × EndsRun (out.new ≡ out.old) (I.remaining input.old)
        (I.remaining input.new) (O.contents out.old) (O.contents out.new) e
        × ReportsError (E.contents err.old) (E.contents err.new) e }
{
    match show_input(alloc, input, out) {
        Ok(()) => 0,
        Err(e) => {
            report(alloc, err, &e);
            1
        }
    }
}

/// Does what [`run`] does, and returns the status as the exit code of the process.
pub fn exit_code<I: Read, O: Write, E: Write>(
    alloc: Global,
    input: &mut I,
    out: &mut O,
    err: &mut E,
) -> ExitCode
    ensures status { exit_status result ≤ 1 }
    ensures shown { exit_status result ≡ 0 → ShowsInput (I.remaining input.old) (I.remaining input.new)
        (O.contents out.old) (O.contents out.new) }
    ensures quiet { exit_status result ≡ 0 → err.new ≡ err.old }
    ensures told { exit_status result ≡ 1 → (e : RunError) × EndsRun (out.new ≡ out.old) (I.remaining input.old)
        (I.remaining input.new) (O.contents out.old) (O.contents out.new) e
        × ReportsError (E.contents err.old) (E.contents err.new) e }
{
    ExitCode::from(run(alloc, input, out, err))
}

fn show_input<I: Read, O: Write>(alloc: Global, input: &mut I, out: &mut O) -> Result<(), RunError>
    ensures ok { OnOk result (ShowsInput (I.remaining input.old) (I.remaining input.new)
        (O.contents out.old) (O.contents out.new)) }
    ensures err { IfErr result (EndsRun (out.new ≡ out.old)
        (I.remaining input.old) (I.remaining input.new)
        (O.contents out.old) (O.contents out.new)) }
{
    let text = read_input(alloc, input)?;
    let lines = show(alloc, text.as_slice())?;
    write_whole(out, lines.as_str().as_bytes())
}

// The whole input. Memory for the largest input is allocated first.
fn read_input<I: Read>(alloc: Global, input: &mut I) -> Result<Vec<u8>, RunError>
    ensures ok { IfOk result (λ text.
        ReadsWhole (I.remaining input.old) (I.remaining input.new) text.items) }
    ensures err { IfErr result (λ e.
        (e ≡ RunError.Input) ⊎ (e ≡ RunError.NotShown ShowError.Memory)) }
{
    // One byte more, so that an input that fills it is too long.
    let mut text = vec![in alloc; 0; MOST_INPUT + 1]?;
    let length = read_to_end(input, text.as_mut_slice())?;
    text.truncate(length);
    Ok(text)
}

// Reads to the end of the input, which has to come before the buffer is full. Each read but the last fills
// some of it.
fn read_to_end<I: Read>(input: &mut I, room: &mut [u8]) -> Result<usize, RunError>
    ensures within { IfOk result (λ n. n < length room.new) }
    ensures read { IfOk result (λ n.
        ReadsKnown (I.remaining input.old) (I.remaining input.new) (take n room.new)) }
    ensures end { OnOk result (IsAtEnd (I.remaining input.new)) }
    ensures err { IfErr result (λ e. e ≡ RunError.Input) }
{
    let mut length = 0;
    while length < room.len() {
        match input.read(&mut room[length..]) {
            Ok(0) => return Ok(length),
            Ok(count) => length += count,
            Err(_) => return Err(RunError::Input),
        }
    }
    Err(RunError::Input)
}

// Not the writer's own `write_all`, which retries after an interruption.
fn write_whole<W: Write>(out: &mut W, bytes: &[u8]) -> Result<(), RunError>
    ensures ok { OnOk result (Appends (W.contents out.old) (W.contents out.new) bytes.now) }
    ensures part { OnErr result
        (AppendsPrefixOf (W.contents out.old) (W.contents out.new) bytes.now) }
    ensures err { IfErr result (λ e. e ≡ RunError.Output) }
{
    let mut rest = bytes;
    while !rest.is_empty() {
        match out.write(rest) {
            Ok(0) | Err(_) => return Err(RunError::Output),
            Ok(count) => rest = &rest[count..],
        }
    }
    Ok(())
}

// Writes the line with the reason, if it can.
fn report<E: Write>(alloc: Global, err: &mut E, e: &RunError)
    ensures { ReportsError (E.contents err.old) (E.contents err.new) e.now }
{
    let _ = match format!(in alloc; "mh_show: {e}\n") {
        Ok(line) => write_whole(err, line.as_str().as_bytes()),
        Err(AllocError) => write_whole(err, b"mh_show: out of memory\n"),
    };
}
