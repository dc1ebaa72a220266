// What a session is read from and written to.
use std::io::{IsTerminal, Read, Write};

// The input; where the session is printed; where it is told what is wrong.
#[derive(Drop)]
pub struct Streams<R, W, E> {
    pub input: R,
    pub output: W,
    pub errors: E,
}
