// A list as it is written: the parameters, and the lines that follow.
ghost use Rattle.std.specs.Prelude.{◌≡◌, true};
ghost use Rattle.drum.specs.Params.{good_params};

use super::deeds::{Deed, Lent, Line, play};
use drum::Description;
use lines::Reading;
use searchfile::Session;
use std::io;

// What a word means that names no call of the printed session: a remark, and what makes up words and sessions.
fn made_deed(name: &[u8]) -> Deed {
    match name {
        b"VIEW" => Deed::View,
        b"TURN" => Deed::Turn,
        b"SHORT" => Deed::Short,
        b"FILE" => Deed::FileWord,
        b"BUFFER" => Deed::BufferWord,
        b"CURRENT" => Deed::Current,
        b"POSITION" => Deed::Position,
        b"FORM" => Deed::Form,
        b"#" => Deed::Remark,
        _ => Deed::Unknown,
    }
}

// What the first word of a line means.
fn deed_of(name: &[u8]) -> Deed {
    match lines::call_named(name, name.len()) {
        Some(call) => Deed::Call(call),
        None => made_deed(name),
    }
}

// A line as it is written.
fn play_line(out: &impl Print, text: &[u8], s: Session, lent: &mut Lent) -> io::Result<Session> {
    let mut name = [0; 8];
    let mut numbers = [0; 16];
    let taken = lines::take(Reading::new(), text, 0, &mut name, &mut numbers);
    let reading = taken.reading.rest(&mut numbers);
    let spelled = &name[..reading.spelled.min(8)];
    let line = Line {
        deed: deed_of(spelled),
        name: spelled,
        numbers: &numbers[..reading.numbers.clamp(3, 16)],
    };
    play(out, line, s, lent)
}

// All lines of a text.
fn play_lines(out: &impl Print, text: &[u8], start: Session, lent: &mut Lent) -> io::Result<()> {
    let mut s = start;
    for line in text.split_inclusive(|b| *b == b'\n') {
        s = play_line(out, line, s, lent)?;
    }
    Ok(())
}

// The lines of a list over a file of zeros of at most 8,192 words.
fn play_with(out: &impl Print, p: Description, text: &[u8]) -> io::Result<()>
    requires { good_params p ≡ true }
{
    let mut file = [0; 8192];
    let mut buffer = [0; 4096];
    let mut work = [0; 2048];
    let mut marks = [0; 4096];
    let mut lent = Lent {
        file: &mut file[..p.file_size().min(8192)],
        buffer: &mut buffer[..p.wpb.min(4096)],
        work: &mut work[..p.wpr.min(2048)],
        marks: &mut marks[..p.n.min(4096)],
    };
    play_lines(out, text, Session::new(p), &mut lent)
}

// A list: the parameters on its first line.
pub fn play_list(out: &impl Print, text: &[u8]) -> io::Result<()> {
    let mut name = [0; 8];
    let mut numbers = [0; 16];
    let taken = lines::take(Reading::new(), text, 0, &mut name, &mut numbers);
    let Some(p) = lines::parameters_of(taken.reading, &numbers) else {
        return out.write_all(b"no parameters\n");
    };
    if !p.is_good() {
        return out.write_all(b"parameters out of range\n");
    }
    play_with(out, p, &text[taken.at.min(text.len())..])
}
