// Lists of calls of the library: plays each file of data/ that an argument names, its name before what it prints.
// A list begins with a line of the six parameters; then a line says what to do and gives the words for it, those that are not given being 0:
//   CREATE OPEN CLOSE ADV            SEEK DLETE NSERT UPDAT XTEND, the words put into the workspace first            VIEW block
//   TURN, with the form and the marks that it leaves                 FORM form, the session's block form, 1 where no line says it
//   SHORT, a SEEK with a workspace that is too short; and what no call does, to make up words and sessions that no call would leave:
//   FILE place word                  BUFFER place word                  CURRENT block flag            POSITION given word
// A line that begins with # says something to its reader.
#![tactic(auto)]

mod deeds;
mod list;
mod shown;

ghost use Rattle.std.specs.Prelude.{◌≤◌};

use std::env::{Env, FillError};
use std::fs::File;
use std::io::{self, Error, ErrorKind, Read};

// Reads until `text` is full, the list ends or a read fails, and returns how many bytes were read.
fn read_full<R: Read>(list: &mut R, text: &mut [u8; 65536]) -> usize
    ensures { result ≤ 65536 }
{
    let mut done = 0;
    // A while: how far it is, only the reads say.
    while done < 65536 {
        match list.read(&mut text[done..]) {
            Ok(n) if n != 0 => done += n,
            _ => break,
        }
    }
    done
}

// A path is text. Program runs has the same `open` and `main`: shared ones could promise nothing, as all that they do is on files and output.
fn open(rt: &HostRuntime, name: &[u8]) -> io::Result<File> {
    match str::from_utf8(name) {
        Ok(path) => File::open(rt, path),
        Err(_) => Err(Error::from(ErrorKind::InvalidData)),
    }
}

// At most 65,536 bytes of a list are read.
fn play_named(rt: &HostRuntime, name: &[u8]) -> io::Result<()> {
    rt.write_all(name)?;
    rt.write_all(b":\n")?;
    let mut list = match open(rt, name) {
        Ok(list) => list,
        Err(e) => {
            rt.stderr().write_all(name)?;
            return rt.eprintln(format_args!(": {e}"));
        }
    };
    let mut text = [0; 65536];
    let n = read_full(&mut list, &mut text);
    list::play_list(rt, &text[..n])
}

// A name above 4,096 bytes is taken for none.
fn main(rt: HostRuntime) -> io::Result<()> {
    let mut name = [0; 4096];
    // A bound and no `loop`: every loop is proved to end. One by one into fixed memory: `env::args` takes a heap.
    for i in 1..usize::MAX {
        match rt.arg(i, &mut name) {
            Ok(length) => play_named(&rt, &name[..length])?,
            Err(FillError::TooLong) => play_named(&rt, &name[..0])?,
            Err(FillError::NotPresent) => break,
        }
    }
    Ok(())
}
