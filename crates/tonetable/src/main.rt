// Reads a record from standard input and prints its master's byte table, or the refusal. Where a
// read or a write fails it says so on standard error and ends with status 1; where a read fails it
// prints nothing else.
#![tactic(auto)]

ghost use Rattle.std.specs.Prelude.{◌≡◌, ◌≤◌, IfOk, IfSome, OnOk, Err, length, take};
ghost use Rattle.std.specs.Io.KnownBytes.{Appends, Keeps};
ghost use Rattle.text.specs.Text.{input_bytes, printed};
ghost use Rattle.tonetable.specs.declared.Failure.TheVariants.{Unread};

use std::io::{Read, Write};
use std::process::ExitCode;
use std::{fmt, io};
use text::INPUT;

// Why nothing, or not all, was printed.
#[derive(Clone, Copy)]
enum Failure {
    Unread,
    Unwritten,
}

impl fmt::Display for Failure {
    fn fmt<W: fmt::Write>(&self, f: &mut fmt::Formatter<W>) -> fmt::Result {
        match self {
            Failure::Unread => write!(f, "the input could not be read"),
            Failure::Unwritten => write!(f, "the text could not be written"),
        }
    }
}

// Fills a buffer from its front, as far as the input goes, and answers how many bytes there were.
// Stays: the edit `short_read_ends` is of this loop, and `read_to_end` would need the heap.
fn fill<R: Read>(input: &mut R, buffer: &mut [u8]) -> io::Result<usize>
    ensures bound { IfOk result (λ n. n ≤ length buffer.new) }
    ensures front { IfOk result (λ n. IfSome (R.remaining input.old) (λ s.
        take n buffer.new ≡ take (length buffer.new) s)) }
{
    let mut filled: usize = 0;
    while filled < buffer.len() {
        let more = input.read(&mut buffer[filled..])?;
        if more == 0 {
            return Ok(filled);
        }
        filled += more;
    }
    Ok(filled)
}

// Reads a record and writes its master's byte table, or the refusal.
fn answer<R: Read, W: Write>(input: &mut R, output: &mut W) -> Result<(), Failure>
    ensures text { OnOk result (IfSome (R.remaining input.old) (λ s.
        Appends (W.contents output.old) (W.contents output.new) (printed (take input_bytes s)))) }
    ensures unread { result ≡ Err Unread → Keeps (W.contents output.old) (W.contents output.new) }
{
    let mut bytes = [0u8; INPUT];
    let length = fill(input, &mut bytes).map_err(|_| Failure::Unread)?;
    let text = text::text_of_input(bytes, length);
    output
        .write_all(text.as_slice())
        .map_err(|_| Failure::Unwritten)
}

fn main(rt: HostRuntime) -> io::Result<ExitCode> {
    match answer(&mut rt.stdin(), &mut rt.stdout()) {
        Ok(()) => Ok(ExitCode::SUCCESS),
        Err(failure) => {
            eprintln!(rt; "tonetable: {failure}")?;
            Ok(ExitCode::FAILURE)
        }
    }
}
