// The archive of the calls for programs in other languages: each function is the one of `capi` that has its name, with that one's clauses. A session is
// lent as 73 or 74 words, every slice is a pointer and a length, and a call's answer is one number: its transfers times 2^32, plus its number.
// Said again here: a crate is a library or a static library, and `creading` stands on `capi` (the C interface).
#![tactic(auto)]

mod copying;
mod names;
mod rows;
mod salvaging;
mod space;
mod trays;
mod turning;

ghost use Rattle.std.specs.Prelude.{◌≡◌, []};
ghost use Rattle.rules.specs.Close.{close};
ghost use Rattle.rules.specs.Adv.{adv};
ghost use Rattle.rules.specs.NsertDone.{nsert};
ghost use Rattle.rules.specs.Dlete.{dlete};
ghost use Rattle.rules.specs.XtendDone.{xtend};
ghost use Rattle.rules.specs.Seek.{seek, updat};
ghost use Rattle.searchfile.specs.Promise.{creating};
ghost use Rattle.capi.specs.Calls.{returned, called, marked, called_open};
ghost use Rattle.capi.specs.View.{viewed};
ghost use Rattle.capi.specs.Plan.{most_in};

// CREATE with the session's parameters; the session stays as it is.
#[unsafe(no_mangle)]
pub extern "C" fn nasturakh_create(session: &[u32], file: &mut [u32]) -> u64
    ensures { returned result session.now file.new [] [] ≡ called creating session.now file.old [] [] }
{
    capi::nasturakh_create(session, file)
}

// OPEN, which marks every block.
#[unsafe(no_mangle)]
pub extern "C" fn nasturakh_open(
    session: &mut [u32],
    file: &[u32],
    buffer: &[u32],
    marks: &mut [u8],
) -> u64
    ensures { marked (returned result session.new file.now buffer.now []) marks.new
        ≡ called_open session.old file.now buffer.now marks.old }
{
    capi::nasturakh_open(session, file, buffer, marks)
}

// CLOSE.
#[unsafe(no_mangle)]
pub extern "C" fn nasturakh_close(session: &mut [u32], file: &mut [u32], buffer: &[u32]) -> u64
    ensures { returned result session.new file.new buffer.now []
        ≡ called close session.old file.old buffer.now [] }
{
    capi::nasturakh_close(session, file, buffer)
}

// SEEK.
#[unsafe(no_mangle)]
pub extern "C" fn nasturakh_seek(
    session: &mut [u32],
    file: &mut [u32],
    buffer: &mut [u32],
    work: &mut [u32],
) -> u64
    ensures { returned result session.new file.new buffer.new work.new
        ≡ called seek session.old file.old buffer.old work.old }
{
    capi::nasturakh_seek(session, file, buffer, work)
}

// ADV.
#[unsafe(no_mangle)]
pub extern "C" fn nasturakh_adv(
    session: &mut [u32],
    file: &mut [u32],
    buffer: &mut [u32],
    work: &mut [u32],
) -> u64
    ensures { returned result session.new file.new buffer.new work.new
        ≡ called adv session.old file.old buffer.old work.old }
{
    capi::nasturakh_adv(session, file, buffer, work)
}

// NSERT.
#[unsafe(no_mangle)]
pub extern "C" fn nasturakh_nsert(
    session: &mut [u32],
    file: &mut [u32],
    buffer: &mut [u32],
    work: &[u32],
) -> u64
    ensures { returned result session.new file.new buffer.new work.now
        ≡ called nsert session.old file.old buffer.old work.now }
{
    capi::nasturakh_nsert(session, file, buffer, work)
}

// DLETE.
#[unsafe(no_mangle)]
pub extern "C" fn nasturakh_dlete(
    session: &mut [u32],
    file: &mut [u32],
    buffer: &mut [u32],
    work: &[u32],
) -> u64
    ensures { returned result session.new file.new buffer.new work.now
        ≡ called dlete session.old file.old buffer.old work.now }
{
    capi::nasturakh_dlete(session, file, buffer, work)
}

// UPDAT.
#[unsafe(no_mangle)]
pub extern "C" fn nasturakh_updat(
    session: &mut [u32],
    file: &mut [u32],
    buffer: &mut [u32],
    work: &[u32],
) -> u64
    ensures { returned result session.new file.new buffer.new work.now
        ≡ called updat session.old file.old buffer.old work.now }
{
    capi::nasturakh_updat(session, file, buffer, work)
}

// XTEND.
#[unsafe(no_mangle)]
pub extern "C" fn nasturakh_xtend(
    session: &mut [u32],
    file: &mut [u32],
    buffer: &mut [u32],
    work: &[u32],
) -> u64
    ensures { returned result session.new file.new buffer.new work.now
        ≡ called xtend session.old file.old buffer.old work.now }
{
    capi::nasturakh_xtend(session, file, buffer, work)
}

// VIEW: where the current text of the block lies.
#[unsafe(no_mangle)]
pub extern "C" fn nasturakh_view(session: &[u32], file: &[u32], buffer: &[u32], block: usize) -> u64
    ensures { result ≡ viewed session.now file.now buffer.now block }
{
    capi::nasturakh_view(session, file, buffer, block)
}

// The most transfers that a planned session can cost; 2^64 - 1 where there is no session or no plan.
#[unsafe(no_mangle)]
pub extern "C" fn nasturakh_most_transfers(session: &[u32], plan: &[u32]) -> u64
    ensures { result ≡ most_in session.now plan.now }
{
    capi::nasturakh_most_transfers(session, plan)
}
