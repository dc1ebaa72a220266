// The name register: names entered raw, romanised once, held and freed, over the routine's session by its promises alone. Every call takes
// the session by value and hands it back in its answer; no call has a condition on what it is given.
#![tactic(auto)]

mod checks;
mod moves;

ghost use Rattle.std.specs.Prelude.{◌≡◌};
ghost use Rattle.searchfile.specs.Promise.{given, counted, answered};
ghost use Rattle.register.specs.Register.{enter as entered, ask as asked, next as listed, romanise as spelled, hold as holding, free as freeing};

use checks::{refused, refused_name, refused_spelled};
use moves::{romanised, turned};
use numbers::Refusal;
use searchfile::{Answer, Session};

// The state of a name: its record's first data word.
#[derive(Clone, Copy, Debug, PartialEq, Eq)]
pub enum State {
    Raw,
    Romanised,
    Held,
}

impl From<State> for usize {
    ghost use Rattle.std.specs.Prelude.{◌≡◌};
    ghost use Rattle.register.specs.Names.{word_of};

    ghost from_gives = { λ state word. word ≡ word_of state };

    fn from(state: State) -> usize {
        match state {
            State::Raw => 0,
            State::Romanised => 1,
            State::Held => 2,
        }
    }
}

// "Entering adds a raw name, its spelling zero."
pub fn enter(session: Session, file: &mut [u32], buffer: &mut [u32], work: &mut [u32]) -> Answer
    ensures { answered result file.new buffer.new work.new
        ≡ counted (entered (given session file.old buffer.old work.old)) }
{
    let p = session.desc;
    if let Err(refusal) = refused_name(session, file.len(), buffer.len(), work) {
        return refused(session, refusal);
    }
    words::zero_words(work, p.k, p.wpr - p.k);
    session.nsert(file, buffer, work)
}

// The name's record to the workspace; no record is changed.
pub fn ask(session: Session, file: &mut [u32], buffer: &mut [u32], work: &mut [u32]) -> Answer
    ensures { answered result file.new buffer.new work.new
        ≡ counted (asked (given session file.old buffer.old work.old)) }
{
    let p = session.desc;
    if p.wpr <= p.k {
        return refused(session, Refusal::WrongSize);
    }
    session.seek(file, buffer, work)
}

// The next name of the list to the workspace; no record is changed.
// Beside `ask`: one function over a closure of the call learns nothing of the slices that it captures (tried in capi).
pub fn next(session: Session, file: &mut [u32], buffer: &mut [u32], work: &mut [u32]) -> Answer
    ensures { answered result file.new buffer.new work.new
        ≡ counted (listed (given session file.old buffer.old work.old)) }
{
    let p = session.desc;
    if p.wpr <= p.k {
        return refused(session, Refusal::WrongSize);
    }
    session.adv(file, buffer, work)
}

// "Romanising moves raw to romanised with a given spelling, once."
pub fn romanise(
    session: Session,
    file: &mut [u32],
    buffer: &mut [u32],
    work: &mut [u32],
    spelling: &[u32],
) -> Answer
    ensures { answered result file.new buffer.new work.new
        ≡ counted (spelled spelling.now (given session file.old buffer.old work.old)) }
{
    if let Err(refusal) = refused_spelled(session, file.len(), buffer.len(), work, spelling) {
        return refused(session, refusal);
    }
    romanised(session, file, buffer, work, spelling)
}

// Romanised to held.
pub fn hold(session: Session, file: &mut [u32], buffer: &mut [u32], work: &mut [u32]) -> Answer
    ensures { answered result file.new buffer.new work.new
        ≡ counted (holding (given session file.old buffer.old work.old)) }
{
    turned(session, file, buffer, work, State::Romanised, State::Held)
}

// Held to romanised.
pub fn free(session: Session, file: &mut [u32], buffer: &mut [u32], work: &mut [u32]) -> Answer
    ensures { answered result file.new buffer.new work.new
        ≡ counted (freeing (given session file.old buffer.old work.old)) }
{
    turned(session, file, buffer, work, State::Held, State::Romanised)
}
