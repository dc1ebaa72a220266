// The reading set: a session that finds, steps and looks, on a finished file of one section. The file is lent to be read alone, in every call, and the
// session has no write flag; so no word of the file changes, and what a handset links has no altering code.
#![tactic(auto)]

mod calls;
mod finished;
mod steps;

ghost use Rattle.std.specs.Prelude.{◌≡◌, false, ◌≤◌, length, replicate};
ghost use Rattle.numbers.specs.Refused.{number_of};
ghost use Rattle.rules.specs.State.{at_rest};
ghost use Rattle.face.specs.Counted.{next};
ghost use Rattle.reading.specs.Reading.{as_session};

use drum::Description;
use numbers::Refusal;
use rules::{Done, Held};

// The parameters, open or closed, the current block (0 none), and the position: a key in its first K words, which means nothing unless `placed`.
// `placed` and 0 stay as the words of a session for C have them.
#[derive(Clone, Copy)]
pub struct ReadingSession {
    pub desc: Description,
    pub opened: bool,
    pub current: usize,
    pub placed: bool,
    pub position: [u32; 63],
}

// What a call answers: its number (crate `numbers`), the transfers it made, and the session to go on with.
pub type Answer = face::Answer<ReadingSession>;

impl ReadingSession {
    // A closed session with these parameters.
    pub fn new(desc: Description) -> Self
        ensures { result ≡ record { desc = desc; opened = false; current = 0; placed = false; position = replicate 63 0 } }
    {
        Self {
            desc,
            opened: false,
            current: 0,
            placed: false,
            position: [0; 63],
        }
    }

    // What the steps of a call work with: nothing is flagged.
    // It stays beside the one of searchfile, which hands its flag on.
    fn at(self) -> Held
        ensures { result ≡ record { desc = self.desc; current = self.current; flag = false } }
    {
        Held {
            desc: self.desc,
            current: self.current,
            flag: false,
        }
    }

    // "all unchanged", no transfers.
    // Its own, beside those of searchfile and register: the sessions differ in the flag, and one form for all, in crate face, would be no plainer than this.
    fn refused(self, refusal: Refusal) -> Answer
        ensures { result ≡ record { number = number_of refusal; transfers = 0; session = self } }
    {
        Answer {
            number: u32::from(refusal),
            transfers: 0,
            session: self,
        }
    }

    // "current 0, position none".
    fn at_rest(self, opened: bool) -> Self
        ensures { as_session result ≡ at_rest opened (as_session self) }
    {
        Self {
            opened,
            current: 0,
            placed: false,
            position: [0; 63],
            ..self
        }
    }

    // The answer of a call whose steps are done, which flag nothing; position is the key that stands first in the workspace, where they say so.
    // It stays beside the one of searchfile, which sets a flag.
    fn after(self, done: Done, work: &[u32]) -> Answer
        requires { (self.desc.k ≤ 63) × (self.desc.k ≤ length work.now) × (done.flag ≡ false) }
        ensures { (result.number ≡ done.number)
            × (result.transfers ≡ done.transfers)
            × (as_session result.session ≡ next (as_session self) done work.now) }
    {
        let k = self.desc.k;
        let mut next = Answer {
            number: done.number,
            transfers: done.transfers,
            session: self,
        };
        next.session.current = done.current;
        if done.keyed {
            face::put_key(&mut next.session.position, work, k);
            next.session.placed = true;
        }
        next
    }
}
