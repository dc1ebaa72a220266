// The output's bytes written.
ghost use Rattle.std.specs.Prelude.{◌≤◌, IfOk};
ghost use Rattle.terminal.specs.Places.{Ready};

use super::Stop;
use super::input::Place;
use super::streams::Streams;
use std::io::Write;

// All the bytes, to whoever is told what is wrong: if that can't be done, nobody is left to tell.
pub fn say<W: Write>(to: &mut W, text: &[u8]) {
    let _ = to.write_all(text);
}

// The first `filled` bytes. What can't be written is told, so that no line is missing unnoticed.
pub fn write_filled<R, W: Write, E: Write>(
    streams: &mut Streams<R, W, E>,
    out: &[u8; 65536],
    filled: usize,
) -> Result<(), Stop>
    requires { filled ≤ 65536 }
{
    if streams.output.write_all(&out[..filled]).is_err() {
        say(&mut streams.errors, b"the output can't be written\n");
        return Err(Stop::Failed);
    }
    Ok(())
}

// What a line printed ends at byte `at`: it is written if there would be no room for the text of another line.
pub fn with_room<R, W: Write, E: Write>(
    place: Place,
    at: usize,
    streams: &mut Streams<R, W, E>,
    out: &[u8; 65536],
) -> Result<Place, Stop>
    requires { (Ready place) × (at ≤ 65536) }
    ensures { IfOk result Ready }
{
    if at <= 16384 {
        return Ok(Place {
            filled: at,
            ..place
        });
    }
    write_filled(streams, out, at)?;
    Ok(Place { filled: 0, ..place })
}
