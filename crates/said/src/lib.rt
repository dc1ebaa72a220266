// What the programs print of calls: numbers in a row, and what a call answered.
#![tactic(auto)]

ghost use Rattle.std.specs.Prelude.{◌≡◌, IfOk};

use searchfile::{Answer, Session};
use std::{fmt, io};

// Numbers, each after a space.
#[derive(Clone, Copy)]
pub struct Row<'a, T>(pub &'a [T]);

impl<T: fmt::Display> fmt::Display for Row<'_, T> {
    fn fmt<W: fmt::Write>(&self, f: &mut fmt::Formatter<W>) -> fmt::Result {
        for x in self.0 {
            write!(f, " {x}")?;
        }
        Ok(())
    }
}

// What a call came to: its number as six octal digits, and its transfers.
#[derive(Clone, Copy)]
pub struct Outcome {
    pub number: u32,
    pub transfers: usize,
}

impl fmt::Display for Outcome {
    fn fmt<W: fmt::Write>(&self, f: &mut fmt::Formatter<W>) -> fmt::Result {
        write!(f, " {:06o} {}", self.number, self.transfers)
    }
}

impl<S: Copy> From<face::Answer<S>> for Outcome {
    fn from(answer: face::Answer<S>) -> Self
        ensures { (result.number ≡ answer.number) × (result.transfers ≡ answer.transfers) }
    {
        Self {
            number: answer.number,
            transfers: answer.transfers,
        }
    }
}

// A call's name and key, and what it answered; the session to go on with.
pub fn told(out: &impl Print, name: &str, key: &[u32], answer: Answer) -> io::Result<Session>
    ensures { IfOk result (λ s. s ≡ answer.session) }
{
    let outcome = Outcome::from(answer);
    println!(out; "{name}{}{outcome}", Row(key))?;
    Ok(answer.session)
}
