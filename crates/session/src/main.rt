// One session, printed: parameters and calls from standard input, a line for each call on standard output, and on standard error why a line ends it.
#![tactic(auto)]

use std::env::{Env, FillError};
use std::fs::OpenOptions;
use std::io::{self, Write};
use terminal::{Stop, Streams};

// How a session ended, as descriptor 3 is told it.
fn text_of(ending: Result<(), Stop>) -> [u8; 2] {
    match ending {
        Ok(()) => *b"0\n",
        Err(Stop::Wrong) => *b"1\n",
        Err(Stop::Failed) => *b"2\n",
    }
}

// How the session ended, for a caller that asks; one that gave no descriptor 3 is told nothing. The descriptor is opened anew, at the end of what it
// holds.
fn write_ending(rt: &HostRuntime, ending: Result<(), Stop>) -> io::Result<()> {
    let mut asking = OpenOptions::new().append(true).open(rt, "/dev/fd/3")?;
    asking.write_all(&text_of(ending))
}

// With an argument, whatever it is, the ending is written to descriptor 3.
fn main(rt: HostRuntime) {
    let ending = terminal::play(Streams {
        input: rt.stdin(),
        output: rt.stdout(),
        errors: rt.stderr(),
    });
    match rt.arg(1, &mut [0; 16]) {
        Err(FillError::NotPresent) => {}
        _ => {
            let _ = write_ending(&rt, ending);
        }
    }
}
