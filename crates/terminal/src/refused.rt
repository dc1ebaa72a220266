// The lines that follow parameters out of range.
ghost use Rattle.std.specs.Prelude.{◌≤◌};
ghost use Rattle.printed.specs.Promise.{said_end};
ghost use Rattle.terminal.specs.Places.{Ready};

use super::Stop;
use super::input::{Line, Place, next_line};
use super::output::{with_room, write_filled};
use super::streams::Streams;
use super::told::tell_name;
use printed::Over;
use std::io::{IsTerminal, Read, Write};

// A line with parameters out of range of which everything was read.
fn refuse_read(line: Line, out: &mut [u8; 65536]) -> Result<usize, Over>
    requires { Ready line.place }
    ensures { said_end result ≤ 65536 }
{
    printed::refuse_line(line.reading, &line.name, out, line.place.filled)
}

// All lines with parameters out of range.
pub fn refuse_lines<R: Read + IsTerminal, W: Write, E: Write>(
    start: Place,
    streams: &mut Streams<R, W, E>,
    input: &mut [u8; 65536],
    numbers: &mut [u32; 2048],
    out: &mut [u8; 65536],
) -> Result<(), Stop>
    requires { Ready start }
{
    let mut place = start;
    // A bound and no `loop`: every loop is proved to end.
    for _ in 0..u64::MAX {
        let Some(line) = next_line(place, streams, input, numbers, out)? else {
            return Ok(());
        };
        match refuse_read(line, out) {
            Ok(at) => place = with_room(line.place, at, streams, out)?,
            Err(over) => return Err(tell_name(line, over.at, streams, out)),
        }
    }
    write_filled(streams, out, place.filled)
}
