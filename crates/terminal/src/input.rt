// Lines taken off the input: what is to be written goes out before more input is waited for.
ghost use Rattle.std.specs.Prelude.{◌≤◌, length, IfOk, IfSome};
ghost use Rattle.terminal.specs.Places.{Ready};

use super::Stop;
use super::output::{say, write_filled};
use super::streams::Streams;
use faults::Watch;
use lines::Reading;
use std::io::{IsTerminal, Read, Write};

// The bytes of the input from `at` to `end` are here and not read yet; `filled` bytes of the output are not written yet; so many lines
// were read. That it is `Ready` stays a clause: a struct with a ghost field can't be made by `..` yet, and four functions make it so.
#[derive(Clone, Copy)]
pub struct Place {
    pub at: usize,
    pub end: usize,
    pub filled: usize,
    pub line: usize,
}

// A line as far as it is read, with the first bytes of its first word.
#[derive(Clone, Copy)]
pub struct Line {
    pub place: Place,
    pub reading: Reading,
    pub watch: Watch,
    pub name: [u8; 8],
}

// Whoever types is told what is expected: this is the number of the line.
fn prompt<R: IsTerminal, W, E: Write>(streams: &mut Streams<R, W, E>, line: usize) {
    if !streams.input.is_terminal() {
        return;
    }
    match line {
        1 => say(&mut streams.errors, b"WPB WPR K SPACE CONTROL N? "),
        _ => say(&mut streams.errors, b"call? "),
    }
}

// Reads, and returns how many bytes it read; what can't be read is told.
fn read_some<R: Read, W, E: Write>(
    streams: &mut Streams<R, W, E>,
    input: &mut [u8; 65536],
) -> Result<usize, Stop>
    ensures { IfOk result (λ n. n ≤ 65536) }
{
    match streams.input.read(input) {
        Ok(n) => Ok(n),
        Err(_) => {
            say(&mut streams.errors, b"the input can't be read\n");
            Err(Stop::Failed)
        }
    }
}

// Writes what is to be written, and then reads: whoever waits for an answer has it before the next line is waited for. None is here where the
// input ended.
fn fetch<R: Read + IsTerminal, W: Write, E: Write>(
    place: Place,
    streams: &mut Streams<R, W, E>,
    input: &mut [u8; 65536],
    out: &[u8; 65536],
) -> Result<Place, Stop>
    requires { Ready place }
    ensures { IfOk result Ready }
{
    write_filled(streams, out, place.filled)?;
    prompt(streams, place.line);
    let end = read_some(streams, input)?;
    Ok(Place {
        at: 0,
        end,
        filled: 0,
        line: place.line,
    })
}

// The next line, nothing of it read.
pub fn unread(start: Place) -> Line
    requires { Ready start }
    ensures { Ready result.place }
{
    Line {
        place: Place {
            line: start.line.saturating_add(1),
            ..start
        },
        reading: Reading::new(),
        watch: Watch::new(start.line != 0),
        name: [0; 8],
    }
}

// Takes the line's bytes that are here; whether the line ended there.
fn take_here(line: &mut Line, input: &[u8], numbers: &mut [u32; 2048]) -> bool
    requires { (Ready line.old.place) × (65536 ≤ length input.now) }
    ensures { Ready line.new.place }
{
    let mut name = line.name;
    let at = line.place.at;
    let end = line.place.end;
    let taken = lines::take(line.reading, &input[..end], at, &mut name, numbers);
    *line = Line {
        place: Place {
            at: taken.at,
            ..line.place
        },
        reading: taken.reading,
        watch: faults::look(line.watch, &input[..end], at),
        name,
    };
    taken.ended
}

// What was read of a line when the input ended: a line if there were any bytes of it.
fn last_line(line: Line, numbers: &mut [u32; 2048]) -> Option<Line>
    requires { Ready line.place }
    ensures { IfSome result (λ l. Ready l.place) }
{
    if !line.reading.begun {
        return None;
    }
    Some(Line {
        reading: line.reading.rest(numbers),
        ..line
    })
}

// The next line: bytes that are here, then more of the input until a line or the input ends. After the input's end nothing is left to be written.
pub fn next_line<R: Read + IsTerminal, W: Write, E: Write>(
    start: Place,
    streams: &mut Streams<R, W, E>,
    input: &mut [u8; 65536],
    numbers: &mut [u32; 2048],
    out: &[u8; 65536],
) -> Result<Option<Line>, Stop>
    requires { Ready start }
    ensures { IfOk result (λ o. IfSome o (λ l. Ready l.place)) }
{
    let mut line = unread(start);
    // A bound and no `loop`: every loop is proved to end.
    for _ in 0..u64::MAX {
        if take_here(&mut line, input, numbers) {
            return Ok(Some(line));
        }
        line.place = fetch(line.place, streams, input, out)?;
        if line.place.end == 0 {
            return Ok(last_line(line, numbers));
        }
    }
    Ok(last_line(line, numbers))
}
