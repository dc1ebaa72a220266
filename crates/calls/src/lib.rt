// Calls as values: a call is its kind, and where its key or record begins in an array of words kept beside it.
#![tactic(auto)]

ghost use Rattle.std.specs.Prelude.{◌≡◌};
ghost use Rattle.searchfile.specs.Promise.{given, counted_open};
ghost use Rattle.calls.specs.Perform.{staged, staged_as, staged_for, done, performed_as};

use drum::Description;
use numbers::WRONG_SIZE;
use rules::Call;
use searchfile::{Answer, Session};

// Writes the n words of `words` from word `at` on over the first n of the workspace, if both have room for them.
fn stage_words(words: &[u32], at: usize, n: usize, work: &mut [u32]) -> bool
    ensures { staged_as result work.new ≡ staged words.now at n work.old }
{
    if n <= work.len() && n <= words.len() && at <= words.len() - n {
        words::copy_words(work, 0, words, at, n);
        return true;
    }
    false
}

// Puts the key or record that the call carries into the workspace, if there is room for it.
#[tactic(auto, unfolding(crate::specs::Perform::staged_for))]
fn stage(call: Call, p: Description, words: &[u32], work: &mut [u32]) -> bool
    ensures { staged_as result work.new ≡ staged_for words.now p work.old call }
{
    match call {
        Call::Create | Call::Open | Call::Close | Call::Adv => true,
        Call::Seek { at } | Call::Dlete { at } => stage_words(words, at, p.k, work),
        Call::Nsert { at } | Call::Updat { at } | Call::Xtend { at } => {
            stage_words(words, at, p.wpr, work)
        }
    }
}

// Performs one call: its key or record is put into the workspace, and the session's method of its kind is called. A key or record that has no
// room, in the words or in the workspace, is refused before anything is changed.
// File, buffer, workspace and marks are lent one by one, as the session's methods take them; the refusal is made by hand, as searchfile's own is private.
pub fn perform(
    call: Call,
    words: &[u32],
    s: Session,
    file: &mut [u32],
    buffer: &mut [u32],
    work: &mut [u32],
    marks: &mut [u8],
) -> Answer
    ensures { performed_as result file.new buffer.new work.new marks.new
        ≡ counted_open (done words.now (given s file.old buffer.old work.old) marks.old call) }
{
    if !stage(call, s.desc, words, work) {
        return Answer {
            number: WRONG_SIZE,
            transfers: 0,
            session: s,
        };
    }
    match call {
        Call::Create => s.create(file),
        Call::Open => s.open_file(file, buffer, marks),
        Call::Close => s.close(file, buffer),
        Call::Seek { .. } => s.seek(file, buffer, work),
        Call::Adv => s.adv(file, buffer, work),
        Call::Nsert { .. } => s.nsert(file, buffer, work),
        Call::Dlete { .. } => s.dlete(file, buffer, work),
        Call::Updat { .. } => s.updat(file, buffer, work),
        Call::Xtend { .. } => s.xtend(file, buffer, work),
    }
}
