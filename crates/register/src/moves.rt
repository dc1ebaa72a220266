// The moves of a name: SEEK, the test of its state, and UPDAT with the new record.
ghost use Rattle.std.specs.Prelude.{◌≡◌, ◌<◌, ◌≤◌, length};
ghost use Rattle.searchfile.specs.Promise.{given, counted, answered};
ghost use Rattle.register.specs.Register.{sought as sought_in, move, spelled, turned as own, turn};
ghost use Rattle.register.specs.declared.State.TheVariants.{Raw};
ghost use Rattle.register.specs.Names.{word_of};
ghost use Rattle.register.specs.Checks.{StateFits, SpellingFits, stopped_by, after};
ghost use Rattle.rules.specs.Seek.{updat};

use super::State;
use super::checks::{refused, refused_name};
use numbers::{DONE, NOT_ALLOWED, WRONG_KEY};
use searchfile::{Answer, Session};

// Another number for what SEEK did.
// An Answer and no Result, here and below: both sides would hold the same, a session and a number that SEEK gave.
fn stopped(found: Answer, number: u32) -> Answer
    ensures { result ≡ stopped_by number found }
{
    Answer { number, ..found }
}

// SEEK, and 030007 where the record found is in another state.
fn sought(
    session: Session,
    file: &mut [u32],
    buffer: &mut [u32],
    work: &mut [u32],
    from: State,
) -> Answer
    requires { StateFits session.desc work.old }
    ensures { answered result file.new buffer.new work.new
        ≡ counted (sought_in (word_of from) (given session file.old buffer.old work.old)) }
{
    let k = session.desc.k;
    let found = session.seek(file, buffer, work);
    if found.number != DONE {
        return found;
    }
    if words::word_at(work, k) != usize::from(from) {
        return stopped(found, NOT_ALLOWED);
    }
    found
}

// UPDAT with the workspace, after the steps that found its record.
fn stored(found: Answer, file: &mut [u32], buffer: &mut [u32], work: &[u32]) -> Answer
    requires { found.transfers ≤ 3 }
    ensures { answered result file.new buffer.new work.now
        ≡ after found.transfers (updat (given found.session file.old buffer.old work.now)) }
{
    let done = found.session.updat(file, buffer, work);
    Answer {
        transfers: found.transfers + done.transfers,
        ..done
    }
}

// Raw to romanised, with a spelling of the right length.
pub fn romanised(
    session: Session,
    file: &mut [u32],
    buffer: &mut [u32],
    work: &mut [u32],
    spelling: &[u32],
) -> Answer
    requires { SpellingFits session.desc work.old spelling.now }
    ensures { answered result file.new buffer.new work.new
        ≡ counted (move (word_of Raw) (spelled session.desc spelling.now) (given session file.old buffer.old work.old)) }
{
    let k = session.desc.k;
    let found = sought(session, file, buffer, work, State::Raw);
    if found.number != DONE {
        return found;
    }
    words::copy_words(work, k + 1, spelling, 0, spelling.len());
    words::put_word(work, k, usize::from(State::Romanised));
    stored(found, file, buffer, work)
}

// From one state to another, the spelling kept. A spelling with a word above 262143 (the file was made up) is refused before the state is
// written, so that all is as SEEK left it.
fn kept(
    session: Session,
    file: &mut [u32],
    buffer: &mut [u32],
    work: &mut [u32],
    from: State,
    to: State,
) -> Answer
    requires { StateFits session.desc work.old }
    ensures { answered result file.new buffer.new work.new
        ≡ counted (move (word_of from) (own session.desc (word_of to)) (given session file.old buffer.old work.old)) }
{
    let p = session.desc;
    let found = sought(session, file, buffer, work, from);
    if found.number != DONE {
        return found;
    }
    if !words::all_words(work, p.k + 1, p.wpr - p.k - 1) {
        return stopped(found, WRONG_KEY);
    }
    words::put_word(work, p.k, usize::from(to));
    stored(found, file, buffer, work)
}

// Holding and freeing: the refusals, and then the move.
pub fn turned(
    session: Session,
    file: &mut [u32],
    buffer: &mut [u32],
    work: &mut [u32],
    from: State,
    to: State,
) -> Answer
    ensures { answered result file.new buffer.new work.new
        ≡ counted (turn (word_of from) (word_of to) (given session file.old buffer.old work.old)) }
{
    if let Err(refusal) = refused_name(session, file.len(), buffer.len(), work) {
        return refused(session, refusal);
    }
    kept(session, file, buffer, work, from, to)
}
