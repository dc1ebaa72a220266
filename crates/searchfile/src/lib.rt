// The routine's face: a session on one search file. Every call takes the session by value and hands it back in its answer; no call has a
// condition on what it is given. What is refused, and by which number, is document 01's table "Numbers returned".
#![tactic(auto)]

mod copying;
mod files;
mod records;
mod turning;

ghost use Rattle.std.specs.Prelude.{◌≡◌, false, ◌≤◌, length, replicate};
ghost use Rattle.numbers.specs.Refused.{number_of};
ghost use Rattle.rules.specs.State.{at_rest};
ghost use Rattle.searchfile.specs.Promise.{held, next};

use drum::Description;
use numbers::Refusal;
use rules::{Done, Held};

// "A value handed in and back": the parameters, open or closed, the current block (0 none), the write flag, and the position: a key in its
// first K words, which means nothing unless `placed`. Flag and 0 stay as the words of a session for C have them.
#[derive(Clone, Copy)]
pub struct Session {
    pub desc: Description,
    pub opened: bool,
    pub current: usize,
    pub flag: bool,
    pub placed: bool,
    pub position: [u32; 63],
}

// What a call answers: its number (crate `numbers`), the transfers it made, and the session to go on with.
pub type Answer = face::Answer<Session>;

impl Session {
    // A closed session with these parameters.
    pub fn new(desc: Description) -> Self
        ensures { held result
            ≡ record
            { desc = desc; opened = false; current = 0; flag = false; placed = false; position = replicate 63 0 } }
    {
        Self {
            desc,
            opened: false,
            current: 0,
            flag: false,
            placed: false,
            position: [0; 63],
        }
    }

    // What the steps of a call work with.
    fn at(self) -> Held
        ensures { result ≡ record { desc = self.desc; current = self.current; flag = self.flag } }
    {
        Held {
            desc: self.desc,
            current: self.current,
            flag: self.flag,
        }
    }

    // "all unchanged", no transfers.
    fn refused(self, refusal: Refusal) -> Answer
        ensures { result ≡ record { number = number_of refusal; transfers = 0; session = self } }
    {
        Answer {
            number: u32::from(refusal),
            transfers: 0,
            session: self,
        }
    }

    // "current 0, flag off, position none".
    fn at_rest(self, opened: bool) -> Self
        ensures { held result ≡ at_rest opened (held self) }
    {
        Self {
            opened,
            current: 0,
            flag: false,
            placed: false,
            position: [0; 63],
            ..self
        }
    }

    // The answer of a call whose steps are done; position is the key that stands first in the workspace, where they say so. The answer is
    // changed where it stands: a session put in later would be copied once more.
    fn after(self, done: Done, work: &[u32]) -> Answer
        requires { (self.desc.k ≤ 63) × (self.desc.k ≤ length work.now) }
        ensures { (result.number ≡ done.number)
            × (result.transfers ≡ done.transfers)
            × (held result.session ≡ next (held self) done work.now) }
    {
        let k = self.desc.k;
        let mut next = Answer {
            number: done.number,
            transfers: done.transfers,
            session: self,
        };
        next.session.current = done.current;
        next.session.flag = done.flag;
        if done.keyed {
            face::put_key(&mut next.session.position, work, k);
            next.session.placed = true;
        }
        next
    }
}
