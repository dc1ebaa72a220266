// Stored inputs of the printed session: plays each file of data/ that an argument names, its name before what it prints. `long` is a session in
// which every number occurs that the program can answer with good parameters; `range` has parameters out of range, where only a line's first
// word is looked at; `large` asks for a file above 8,192 words; `empty` is no input at all; the others have a bad line of each kind, or one that
// is just not bad.
#![tactic(auto)]

use std::env::{Env, FillError};
use std::fs::File;
use std::io;
use std::io::{Error, ErrorKind};
use terminal::Streams;

// A path is text. Program plays has the same `open` and `main`: shared ones could promise nothing, as all that they do is on files and output.
fn open(rt: &HostRuntime, name: &[u8]) -> io::Result<File> {
    match str::from_utf8(name) {
        Ok(path) => File::open(rt, path),
        Err(_) => Err(Error::from(ErrorKind::InvalidData)),
    }
}

fn play_named(rt: &HostRuntime, name: &[u8]) -> io::Result<()> {
    rt.write_all(name)?;
    rt.write_all(b":\n")?;
    match open(rt, name) {
        Ok(input) => {
            // how a session ended is seen in what it printed
            let _ = terminal::play(Streams {
                input,
                output: rt.stdout(),
                errors: rt.stderr(),
            });
            Ok(())
        }
        Err(e) => {
            rt.stderr().write_all(name)?;
            rt.eprintln(format_args!(": {e}"))
        }
    }
}

// A name above 4,096 bytes is taken for none.
fn main(rt: HostRuntime) -> io::Result<()> {
    let mut name = [0; 4096];
    // A bound and no `loop`: every loop is proved to end. One by one into fixed memory: `env::args` takes a heap.
    for i in 1..usize::MAX {
        match rt.arg(i, &mut name) {
            Ok(length) => play_named(&rt, &name[..length])?,
            Err(FillError::TooLong) => play_named(&rt, &name[..0])?,
            Err(FillError::NotPresent) => break,
        }
    }
    Ok(())
}
