// What standard error is told of a line that ends a session, or of parameters out of range.
ghost use Rattle.std.specs.Prelude.{◌≤◌, length};

use super::Stop;
use super::input::Line;
use super::output::{say, write_filled};
use super::streams::Streams;
use drum::Description;
use faults::Fault;
use std::io::Write;

// Writes what is to be written, and then to standard error what is wrong with line number `line`.
fn tell<R, W: Write, E: Write>(
    line: usize,
    word: &[u8],
    fault: Fault,
    filled: usize,
    streams: &mut Streams<R, W, E>,
    out: &mut [u8; 65536],
) -> Stop
    requires { (filled ≤ 65536) × (length word.now ≤ 8) }
{
    let written = write_filled(streams, out, filled);
    let n = faults::put_sentence(out, line, word, fault);
    say(&mut streams.errors, &out[..n]);
    written.err().unwrap_or(Stop::Wrong)
}

// A first line with which no call is played.
pub fn tell_first<R, W: Write, E: Write>(
    line: Line,
    filled: usize,
    streams: &mut Streams<R, W, E>,
    numbers: &[u32; 2048],
    out: &mut [u8; 65536],
) -> Stop
    requires { filled ≤ 65536 }
{
    let given = lines::parameters_of(line.reading, numbers);
    let fault = faults::first_fault(line.watch, given);
    tell(line.place.line, b"", fault, filled, streams, out)
}

// A line of calls that is no such call. Beside `tell_name`, since they tell other faults of the same line.
pub fn tell_call<R, W: Write, E: Write>(
    line: Line,
    p: Description,
    filled: usize,
    streams: &mut Streams<R, W, E>,
    out: &mut [u8; 65536],
) -> Stop
    requires { filled ≤ 65536 }
{
    let n = line.reading.spelled.min(8);
    let fault = faults::call_fault(p, line.watch, &line.name[..n]);
    tell(
        line.place.line,
        &line.name[..n],
        fault,
        filled,
        streams,
        out,
    )
}

// A line that names no call.
pub fn tell_name<R, W: Write, E: Write>(
    line: Line,
    filled: usize,
    streams: &mut Streams<R, W, E>,
    out: &mut [u8; 65536],
) -> Stop
    requires { filled ≤ 65536 }
{
    let n = line.reading.spelled.min(8);
    let fault = faults::name_fault(line.watch, &line.name[..n]);
    tell(
        line.place.line,
        &line.name[..n],
        fault,
        filled,
        streams,
        out,
    )
}
