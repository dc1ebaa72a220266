// The lines of calls.
ghost use Rattle.std.specs.Prelude.{◌≤◌, MatchResult};
ghost use Rattle.terminal.specs.Places.{Ready, Playable, Roomy};

use super::Stop;
use super::input::{Line, Place, next_line};
use super::output::{with_room, write_filled};
use super::streams::Streams;
use super::told::tell_call;
use printed::{Over, Turn};
use searchfile::Session;
use std::io::{IsTerminal, Read, Write};

// A line of calls, and the session that it is played in.
#[derive(Clone, Copy)]
struct Here {
    line: Line,
    session: Session,
}

// A line of calls of which everything was read, its words cut to the sizes that the parameters ask for.
// A record fills at most half a block, and a file of 8,192 words has at most 4,096 blocks.
fn call_cut(
    here: Here,
    file: &mut [u32],
    buffer: &mut [u32],
    work: &mut [u32],
    numbers: &[u32; 2048],
    out: &mut [u8; 65536],
) -> Result<Turn, Over>
    requires { (here.line.place.filled ≤ 16384) × (Playable here.session.desc) × (Roomy file.old buffer.old work.old) }
    ensures { MatchResult result (λ t. (Playable t.session.desc) × (t.at ≤ 65536)) (λ e. e.at ≤ 65536) }
{
    let mut marks = [0; 4096];
    let line = here.line;
    let p = here.session.desc;
    let size = p.file_size();
    printed::call_line(
        line.reading,
        &line.name,
        numbers,
        here.session,
        &mut file[..size],
        &mut buffer[..p.wpb],
        &mut work[..p.wpr],
        &mut marks[..p.n],
        out,
        line.place.filled,
    )
}

// The same, with words for the largest file, block and record. Two functions: `call_cut` cuts the words, this one knows the sizes.
fn call_read(
    here: Here,
    file: &mut [u32; 8192],
    buffer: &mut [u32; 4096],
    work: &mut [u32; 2048],
    numbers: &[u32; 2048],
    out: &mut [u8; 65536],
) -> Result<Turn, Over>
    requires { (here.line.place.filled ≤ 16384) × (Playable here.session.desc) }
    ensures { MatchResult result (λ t. (Playable t.session.desc) × (t.at ≤ 65536)) (λ e. e.at ≤ 65536) }
{
    call_cut(here, file, buffer, work, numbers, out)
}

// All lines of calls, over a file of zeros.
pub fn play_calls<R: Read + IsTerminal, W: Write, E: Write>(
    start: Place,
    opening: Session,
    streams: &mut Streams<R, W, E>,
    input: &mut [u8; 65536],
    numbers: &mut [u32; 2048],
    out: &mut [u8; 65536],
) -> Result<(), Stop>
    requires { (Ready start) × (Playable opening.desc) }
{
    let mut file = [0; 8192];
    let mut buffer = [0; 4096];
    let mut work = [0; 2048];
    let mut place = start;
    let mut session = opening;
    // A bound and no `loop`: every loop is proved to end.
    for _ in 0..u64::MAX {
        let Some(line) = next_line(place, streams, input, numbers, out)? else {
            return Ok(());
        };
        let here = Here { line, session };
        match call_read(here, &mut file, &mut buffer, &mut work, numbers, out) {
            Ok(turn) => {
                session = turn.session;
                place = with_room(line.place, turn.at, streams, out)?;
            }
            Err(over) => return Err(tell_call(line, session.desc, over.at, streams, out)),
        }
    }
    write_filled(streams, out, place.filled)
}
