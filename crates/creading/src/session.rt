// A reading session as words: those of a session, whose flag is off.
ghost use Rattle.std.specs.Prelude.{◌≡◌, true, false, IfSome, IfNone};
ghost use Rattle.searchfile.specs.Promise.{held};
ghost use Rattle.reading.specs.Reading.{as_session};
ghost use Rattle.capi.specs.Words.{session_of, words_of, packed};
ghost use Rattle.capi.specs.Calls.{Tellable};
ghost use Rattle.creading.specs.Calls.{is_reading, whole_answer};

use capi::session::{session_in, told};
use reading::ReadingSession;
use searchfile::Session;

// The session that the words are, where they are a reading session's: its flag is off.
pub fn unflagged_in(words: &[u32]) -> Option<Session>
    ensures yes { IfSome result (λ s. is_reading words.now ≡ true) }
    ensures same { IfSome result (λ s. held s ≡ session_of words.now) }
    ensures no { IfNone result (is_reading words.now ≡ false) }
{
    let s = session_in(words)?;
    if s.flag { None } else { Some(s) }
}

// The reading session that the words are, where they are one's.
// By hand, as the next: neither of the two types is this crate's, so no From can stand here.
pub fn reading_in(words: &[u32]) -> Option<ReadingSession>
    ensures yes { IfSome result (λ s. is_reading words.now ≡ true) }
    ensures same { IfSome result (λ s. as_session s ≡ session_of words.now) }
    ensures no { IfNone result (is_reading words.now ≡ false) }
{
    let s = unflagged_in(words)?;
    let position = s.position;
    Some(ReadingSession {
        desc: s.desc,
        opened: s.opened,
        current: s.current,
        placed: s.placed,
        position,
    })
}

// Tells what a reading call answered, as the full set's answers are told: the flag is off.
pub fn told_reading(words: &mut [u32], a: reading::Answer) -> u64
    requires { Tellable words.old (whole_answer a) }
    ensures { (result ≡ packed a.transfers a.number) × (words.new ≡ words_of words.old (as_session a.session)) }
{
    let s = a.session;
    let position = s.position;
    let session = Session {
        desc: s.desc,
        opened: s.opened,
        current: s.current,
        flag: false,
        placed: s.placed,
        position,
    };
    let answer = searchfile::Answer {
        number: a.number,
        transfers: a.transfers,
        session,
    };
    told(words, answer)
}
