// The reading set's calls for programs in other languages, which crate `creading_c` exports: shapes and answers are those of the full set's calls, the
// file is lent to be read alone.
// Not one function over a closure, as in `capi`: the proof doesn't close.
#![tactic(auto)]

mod session;

ghost use Rattle.std.specs.Prelude.{◌≡◌, []};
ghost use Rattle.reading.specs.Reading.{read_close, read_seek, read_adv, read_alter};
ghost use Rattle.capi.specs.Calls.{returned, marked};
ghost use Rattle.creading.specs.Calls.{called_reading, called_reading_open, viewed_reading};

use capi::place::place_of;
use capi::session::WRONG_WORDS;
use session::{reading_in, told_reading, unflagged_in};

// OPEN, which marks every block.
pub fn nasturakh_reading_open(
    session: &mut [u32],
    file: &[u32],
    buffer: &[u32],
    marks: &mut [u8],
) -> u64
    ensures { marked (returned result session.new file.now buffer.now []) marks.new
        ≡ called_reading_open session.old file.now buffer.now marks.old }
{
    let Some(s) = reading_in(session) else {
        return WRONG_WORDS;
    };
    let answer = s.open(file, buffer, marks);
    told_reading(session, answer)
}

// CLOSE.
pub fn nasturakh_reading_close(session: &mut [u32], file: &[u32], buffer: &[u32]) -> u64
    ensures { returned result session.new file.now buffer.now []
        ≡ called_reading read_close session.old file.now buffer.now [] }
{
    let Some(s) = reading_in(session) else {
        return WRONG_WORDS;
    };
    let answer = s.close(file, buffer);
    told_reading(session, answer)
}

// SEEK.
pub fn nasturakh_reading_seek(
    session: &mut [u32],
    file: &[u32],
    buffer: &mut [u32],
    work: &mut [u32],
) -> u64
    ensures { returned result session.new file.now buffer.new work.new
        ≡ called_reading read_seek session.old file.now buffer.old work.old }
{
    let Some(s) = reading_in(session) else {
        return WRONG_WORDS;
    };
    let answer = s.seek(file, buffer, work);
    told_reading(session, answer)
}

// ADV.
pub fn nasturakh_reading_adv(
    session: &mut [u32],
    file: &[u32],
    buffer: &mut [u32],
    work: &mut [u32],
) -> u64
    ensures { returned result session.new file.now buffer.new work.new
        ≡ called_reading read_adv session.old file.now buffer.old work.old }
{
    let Some(s) = reading_in(session) else {
        return WRONG_WORDS;
    };
    let answer = s.adv(file, buffer, work);
    told_reading(session, answer)
}

// NSERT, refused.
pub fn nasturakh_reading_nsert(
    session: &mut [u32],
    file: &[u32],
    buffer: &[u32],
    work: &[u32],
) -> u64
    ensures { returned result session.new file.now buffer.now work.now
        ≡ called_reading read_alter session.old file.now buffer.now work.now }
{
    let Some(s) = reading_in(session) else {
        return WRONG_WORDS;
    };
    let answer = s.nsert(file, buffer, work);
    told_reading(session, answer)
}

// DLETE, refused.
pub fn nasturakh_reading_dlete(
    session: &mut [u32],
    file: &[u32],
    buffer: &[u32],
    work: &[u32],
) -> u64
    ensures { returned result session.new file.now buffer.now work.now
        ≡ called_reading read_alter session.old file.now buffer.now work.now }
{
    let Some(s) = reading_in(session) else {
        return WRONG_WORDS;
    };
    let answer = s.dlete(file, buffer, work);
    told_reading(session, answer)
}

// UPDAT, refused.
pub fn nasturakh_reading_updat(
    session: &mut [u32],
    file: &[u32],
    buffer: &[u32],
    work: &[u32],
) -> u64
    ensures { returned result session.new file.now buffer.now work.now
        ≡ called_reading read_alter session.old file.now buffer.now work.now }
{
    let Some(s) = reading_in(session) else {
        return WRONG_WORDS;
    };
    let answer = s.updat(file, buffer, work);
    told_reading(session, answer)
}

// XTEND, refused.
pub fn nasturakh_reading_xtend(
    session: &mut [u32],
    file: &[u32],
    buffer: &[u32],
    work: &[u32],
) -> u64
    ensures { returned result session.new file.now buffer.now work.now
        ≡ called_reading read_alter session.old file.now buffer.now work.now }
{
    let Some(s) = reading_in(session) else {
        return WRONG_WORDS;
    };
    let answer = s.xtend(file, buffer, work);
    told_reading(session, answer)
}

// VIEW: where the current text of a block lies, as the full set tells it.
pub fn nasturakh_reading_view(session: &[u32], file: &[u32], buffer: &[u32], block: usize) -> u64
    ensures { result ≡ viewed_reading session.now file.now buffer.now block }
{
    let Some(s) = unflagged_in(session) else {
        return WRONG_WORDS;
    };
    if s.desc.control != 1 {
        0
    } else {
        place_of(s, file, buffer, block)
    }
}
