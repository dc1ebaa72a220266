// The printed session, from a reader to a writer: lines are taken off the input, and what `printed` makes of them is written before more input is
// waited for. What `faults` says of a line that ends it goes to a second writer. No contract here speaks of what is read or written; all that
// decides stands in `lines`, `printed` and `faults`.
#![tactic(auto)]

mod input;
mod output;
mod refused;
mod streams;
mod told;
mod turns;

ghost use Rattle.std.specs.Prelude.{◌≡◌, IfOk};
ghost use Rattle.lines.specs.Reading.{parameters_in};
ghost use Rattle.printed.specs.Output.{start_of};
ghost use Rattle.terminal.specs.Places.{Ready};

use input::{Line, Place, next_line, unread};
use printed::Start;
use refused::refuse_lines;
use searchfile::Session;
use std::io::{IsTerminal, Read, Write};
pub use streams::Streams;
use told::tell_first;
use turns::play_calls;

// Why a session stops before its input ends: a line was bad or the file too large; reading or writing failed.
#[derive(Clone, Copy, Debug, PartialEq, Eq)]
pub enum Stop {
    Wrong,
    Failed,
}

// What the first line makes of the program.
fn start_of(line: Line, numbers: &[u32; 2048]) -> Start
    ensures { result ≡ start_of (parameters_in line.reading numbers.now) }
{
    printed::start_of(line.reading, numbers)
}

// The first line; no line at all is an empty one.
fn first_line<R: Read + IsTerminal, W: Write, E: Write>(
    streams: &mut Streams<R, W, E>,
    input: &mut [u8; 65536],
    numbers: &mut [u32; 2048],
    out: &[u8; 65536],
) -> Result<Line, Stop>
    ensures { IfOk result (λ l. Ready l.place) }
{
    let start = Place {
        at: 0,
        end: 0,
        filled: 0,
        line: 0,
    };
    Ok(next_line(start, streams, input, numbers, out)?.unwrap_or(unread(start)))
}

// Plays the session that a file holds, or what is typed.
pub fn play<R: Read + IsTerminal + Drop, W: Write + Drop, E: Write + Drop>(
    mut streams: Streams<R, W, E>,
) -> Result<(), Stop> {
    let mut input = [0; 65536];
    let mut numbers = [0; 2048];
    let mut out = [0; 65536];
    let line = first_line(&mut streams, &mut input, &mut numbers, &out)?;
    let place = line.place;
    let begun = start_of(line, &numbers);
    if let Start::Good { p } = begun {
        return play_calls(
            place,
            Session::new(p),
            &mut streams,
            &mut input,
            &mut numbers,
            &mut out,
        );
    }
    let filled = printed::put_start(begun, &mut out, 0);
    let stop = tell_first(line, filled, &mut streams, &numbers, &mut out);
    match begun {
        Start::OutOfRange => {
            refuse_lines(place, &mut streams, &mut input, &mut numbers, &mut out)
        }
        _ => Err(stop),
    }
}
