// A session as 73 words, or 74 with its block form, and an answer as one 64-bit number.
ghost use Rattle.std.specs.Prelude.{◌≡◌, ◌≤◌, true, false, length, get_or, set, IfSome, IfNone};
ghost use Rattle.searchfile.specs.Promise.{held};
ghost use Rattle.capi.specs.Words.{is_session, parameters_in, session_of, words_of, most_word, packed as packed_number};
ghost use Rattle.capi.specs.Calls.{Writable, Tellable};

use drum::Description;
use searchfile::{Answer, Session};

const SESSION_WORDS: usize = 73;

// With the form behind them.
pub const FORM_WORDS: usize = 74;

const FORM_PLACE: usize = 73;

// How many words of 64 bits are lent to tell the figures of many calls in.
pub const TOLD_WORDS: usize = 2;

// What is answered where the words lent are no session's, or not as many as are needed: 020007, with no transfer.
pub const WRONG_WORDS: u64 = 0o020007;

// Whether the words are a session's.
#[tactic(auto, unfolding(crate::specs::Words::is_session))]
pub fn is_session(words: &[u32]) -> bool
    ensures { result ≡ is_session words.now }
{
    SESSION_WORDS <= words.len()
        && words.len() <= FORM_WORDS
        && words[6] <= 1
        && words[8] <= 1
        && words[9] <= 1
}

// The block form; words without a place for it are of the first.
fn form_in(words: &[u32]) -> usize
    ensures { result ≡ get_or words.now 73 1 }
{
    if words.len() <= FORM_PLACE {
        Description::FIRST
    } else {
        words::word_at(words, FORM_PLACE)
    }
}

// The parameters that stand in a session's words.
pub fn parameters_in(words: &[u32]) -> Description
    requires { 73 ≤ length words.now }
    ensures { result ≡ parameters_in words.now }
{
    Description {
        wpb: words::word_at(words, 0),
        wpr: words::word_at(words, 1),
        k: words::word_at(words, 2),
        space: words::word_at(words, 3),
        control: words::word_at(words, 4),
        n: words::word_at(words, 5),
        form: form_in(words),
    }
}

// The session that the words are.
pub fn session_of(words: &[u32]) -> Session
    requires { 73 ≤ length words.now }
    ensures { held result ≡ session_of words.now }
{
    let mut position = [0; 63];
    words::copy_words(&mut position, 0, words, 10, 63);
    Session {
        desc: parameters_in(words),
        opened: words[6] == 1,
        current: words::word_at(words, 7),
        flag: words[8] == 1,
        placed: words[9] == 1,
        position,
    }
}

// The session that the words are, where they are one's.
pub fn session_in(words: &[u32]) -> Option<Session>
    ensures yes { IfSome result (λ s. is_session words.now ≡ true) }
    ensures same { IfSome result (λ s. held s ≡ session_of words.now) }
    ensures no { IfNone result (is_session words.now ≡ false) }
{
    if !is_session(words) {
        return None;
    }
    Some(session_of(words))
}

// Writes a session over the words of one with the same parameters: these, the form too, stand there.
pub fn put_session(words: &mut [u32], s: Session)
    requires { Writable words.old s }
    ensures { words.new ≡ words_of words.old (held s) }
{
    words::copy_words(words, 10, &s.position, 0, 63);
    words[6] = u32::from(s.opened);
    words[7] = s.current as u32;
    words[8] = u32::from(s.flag);
    words[9] = u32::from(s.placed);
}

// Writes another block form.
pub fn put_form(words: &mut [u32], form: usize)
    requires { (length words.old ≡ 74) × (form ≤ most_word) }
    ensures { words.new ≡ set words.old 73 form }
{
    words[FORM_PLACE] = form as u32;
}

// "transfers times 2^32, plus the number".
pub fn packed(transfers: usize, number: u32) -> u64
    requires { transfers ≤ 16 }
    ensures { result ≡ packed_number transfers number }
{
    (transfers as u64) * 4294967296 + u64::from(number)
}

// Tells what a session call answered: its session over the words, its number and transfers as the result.
pub fn told(words: &mut [u32], a: Answer) -> u64
    requires { Tellable words.old a }
    ensures { (result ≡ packed_number a.transfers a.number) × (words.new ≡ words_of words.old (held a.session)) }
{
    put_session(words, a.session);
    packed(a.transfers, a.number)
}
