// What is wrong with a line that ends a session, or with its parameters, and the sentence that says it. Document 01 fixes standard output alone;
// this is for standard error.
#![tactic(auto)]

mod figures;
mod first;
mod nearest;
mod sentence;
mod watch;

ghost use Rattle.std.specs.Prelude.{◌≡◌};
ghost use Rattle.faults.specs.Faults.{name_fault, numbers_fault, call_fault};

use drum::Description;
pub use first::first_fault;
use nearest::nearest;
use rules::Call;
pub use sentence::put_sentence;
pub use watch::{Watch, look};

// The parameters of a first line.
#[derive(Clone, Copy)]
pub enum Parameter {
    Wpb,
    Wpr,
    K,
    Space,
    Control,
    N,
}

// What is wrong: with a line of calls; with a line of either kind (word number `word`; a number above the greatest); with a first line.
#[derive(Clone, Copy)]
pub enum Fault {
    Empty,
    NotPlayed,
    NoCall {
        nearest: Option<Call>,
    },
    Count {
        call: Call,
        takes: usize,
        given: usize,
    },
    NoNumber {
        word: usize,
    },
    AboveTop,
    NotSix {
        given: usize,
    },
    OutOfRange {
        what: Parameter,
        value: usize,
        least: usize,
        most: usize,
    },
    TooLarge {
        size: usize,
    },
}

// A line whose first word, `word`, names no call.
pub fn name_fault(w: Watch, word: &[u8]) -> Fault
    ensures { result ≡ name_fault w word.now }
{
    if w.words == 0 {
        return Fault::Empty;
    }
    if lines::is_name(word, word.len(), b"VIEW") {
        return Fault::NotPlayed;
    }
    Fault::NoCall {
        nearest: nearest(word),
    }
}

// A line that names a call which takes so many numbers.
fn numbers_fault(w: Watch, call: Call, takes: usize) -> Fault
    ensures { result ≡ numbers_fault w call takes }
{
    if let Some(word) = w.odd {
        return Fault::NoNumber { word };
    }
    if w.behind() != takes {
        return Fault::Count {
            call,
            takes,
            given: w.behind(),
        };
    }
    Fault::AboveTop
}

// A line of calls that is no such call.
pub fn call_fault(p: Description, w: Watch, word: &[u8]) -> Fault
    ensures { result ≡ call_fault p w word.now }
{
    match lines::call_named(word, word.len()) {
        None => name_fault(w, word),
        Some(call) => numbers_fault(w, call, lines::carries(p, call)),
    }
}
