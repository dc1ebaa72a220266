// The calls for programs in other languages, which crate `capi_c` exports. A session is lent as 73 or 74 words (module `session`), every slice is a pointer
// and a length, and a call's answer is one number: its transfers times 2^32, plus its number. A session slice that is none answers 020007 and changes nothing.
// Not one function over a closure: tried, and the proof doesn't close, since its caller learns nothing of the slices that the closure captures.
#![tactic(auto)]

pub mod copying;
pub mod names;
pub mod place;
mod plan;
pub mod rows;
pub mod salvaging;
pub mod session;
pub mod space;
pub mod trays;
pub mod turning;

ghost use Rattle.std.specs.Prelude.{◌≡◌, []};
ghost use Rattle.rules.specs.Close.{close};
ghost use Rattle.rules.specs.Adv.{adv};
ghost use Rattle.rules.specs.NsertDone.{nsert};
ghost use Rattle.rules.specs.Dlete.{dlete};
ghost use Rattle.rules.specs.XtendDone.{xtend};
ghost use Rattle.rules.specs.Seek.{seek, updat};
ghost use Rattle.searchfile.specs.Promise.{creating};
ghost use Rattle.capi.specs.Calls.{returned, called, marked, called_open};
ghost use Rattle.capi.specs.View.{viewed};
ghost use Rattle.capi.specs.Plan.{most_in};

use place::place_of;
use plan::{NO_PLAN, PLAN_WORDS, plan_in, planner_in};
use session::{WRONG_WORDS, packed, session_in, told};

// CREATE with the session's parameters; the session stays as it is.
pub fn nasturakh_create(session: &[u32], file: &mut [u32]) -> u64
    ensures { returned result session.now file.new [] [] ≡ called creating session.now file.old [] [] }
{
    let Some(s) = session_in(session) else {
        return WRONG_WORDS;
    };
    let answer = s.create(file);
    packed(answer.transfers, answer.number)
}

// OPEN, which marks every block.
pub fn nasturakh_open(session: &mut [u32], file: &[u32], buffer: &[u32], marks: &mut [u8]) -> u64
    ensures { marked (returned result session.new file.now buffer.now []) marks.new
        ≡ called_open session.old file.now buffer.now marks.old }
{
    let Some(s) = session_in(session) else {
        return WRONG_WORDS;
    };
    let answer = s.open_file(file, buffer, marks);
    told(session, answer)
}

// CLOSE.
pub fn nasturakh_close(session: &mut [u32], file: &mut [u32], buffer: &[u32]) -> u64
    ensures { returned result session.new file.new buffer.now []
        ≡ called close session.old file.old buffer.now [] }
{
    let Some(s) = session_in(session) else {
        return WRONG_WORDS;
    };
    let answer = s.close(file, buffer);
    told(session, answer)
}

// SEEK.
pub fn nasturakh_seek(
    session: &mut [u32],
    file: &mut [u32],
    buffer: &mut [u32],
    work: &mut [u32],
) -> u64
    ensures { returned result session.new file.new buffer.new work.new
        ≡ called seek session.old file.old buffer.old work.old }
{
    let Some(s) = session_in(session) else {
        return WRONG_WORDS;
    };
    let answer = s.seek(file, buffer, work);
    told(session, answer)
}

// ADV.
pub fn nasturakh_adv(
    session: &mut [u32],
    file: &mut [u32],
    buffer: &mut [u32],
    work: &mut [u32],
) -> u64
    ensures { returned result session.new file.new buffer.new work.new
        ≡ called adv session.old file.old buffer.old work.old }
{
    let Some(s) = session_in(session) else {
        return WRONG_WORDS;
    };
    let answer = s.adv(file, buffer, work);
    told(session, answer)
}

// NSERT.
pub fn nasturakh_nsert(
    session: &mut [u32],
    file: &mut [u32],
    buffer: &mut [u32],
    work: &[u32],
) -> u64
    ensures { returned result session.new file.new buffer.new work.now
        ≡ called nsert session.old file.old buffer.old work.now }
{
    let Some(s) = session_in(session) else {
        return WRONG_WORDS;
    };
    let answer = s.nsert(file, buffer, work);
    told(session, answer)
}

// DLETE.
pub fn nasturakh_dlete(
    session: &mut [u32],
    file: &mut [u32],
    buffer: &mut [u32],
    work: &[u32],
) -> u64
    ensures { returned result session.new file.new buffer.new work.now
        ≡ called dlete session.old file.old buffer.old work.now }
{
    let Some(s) = session_in(session) else {
        return WRONG_WORDS;
    };
    let answer = s.dlete(file, buffer, work);
    told(session, answer)
}

// UPDAT.
pub fn nasturakh_updat(
    session: &mut [u32],
    file: &mut [u32],
    buffer: &mut [u32],
    work: &[u32],
) -> u64
    ensures { returned result session.new file.new buffer.new work.now
        ≡ called updat session.old file.old buffer.old work.now }
{
    let Some(s) = session_in(session) else {
        return WRONG_WORDS;
    };
    let answer = s.updat(file, buffer, work);
    told(session, answer)
}

// XTEND.
pub fn nasturakh_xtend(
    session: &mut [u32],
    file: &mut [u32],
    buffer: &mut [u32],
    work: &[u32],
) -> u64
    ensures { returned result session.new file.new buffer.new work.now
        ≡ called xtend session.old file.old buffer.old work.now }
{
    let Some(s) = session_in(session) else {
        return WRONG_WORDS;
    };
    let answer = s.xtend(file, buffer, work);
    told(session, answer)
}

// VIEW: where the current text of the block lies.
pub fn nasturakh_view(session: &[u32], file: &[u32], buffer: &[u32], block: usize) -> u64
    ensures { result ≡ viewed session.now file.now buffer.now block }
{
    let Some(s) = session_in(session) else {
        return WRONG_WORDS;
    };
    place_of(s, file, buffer, block)
}

// The most transfers that a planned session can cost; 2^64 - 1 where there is no session or no plan.
pub fn nasturakh_most_transfers(session: &[u32], plan: &[u32]) -> u64
    ensures { result ≡ most_in session.now plan.now }
{
    let Some(p) = planner_in(session) else {
        return NO_PLAN;
    };
    if plan.len() != PLAN_WORDS {
        return NO_PLAN;
    }
    demands::most_transfers(p, plan_in(plan))
}
