// The reading set's archive for programs in other languages: each function is the one of `creading` that has its name, with that one's clauses.
// Said again here: a crate is a library or a static library, and the functions are those of a library (the C interface).
#![tactic(auto)]

ghost use Rattle.std.specs.Prelude.{◌≡◌, []};
ghost use Rattle.reading.specs.Reading.{read_close, read_seek, read_adv, read_alter};
ghost use Rattle.capi.specs.Calls.{returned, marked};
ghost use Rattle.creading.specs.Calls.{called_reading, called_reading_open, viewed_reading};

// OPEN, which marks every block.
#[unsafe(no_mangle)]
pub extern "C" fn nasturakh_reading_open(
    session: &mut [u32],
    file: &[u32],
    buffer: &[u32],
    marks: &mut [u8],
) -> u64
    ensures { marked (returned result session.new file.now buffer.now []) marks.new
        ≡ called_reading_open session.old file.now buffer.now marks.old }
{
    creading::nasturakh_reading_open(session, file, buffer, marks)
}

// CLOSE.
#[unsafe(no_mangle)]
pub extern "C" fn nasturakh_reading_close(session: &mut [u32], file: &[u32], buffer: &[u32]) -> u64
    ensures { returned result session.new file.now buffer.now []
        ≡ called_reading read_close session.old file.now buffer.now [] }
{
    creading::nasturakh_reading_close(session, file, buffer)
}

// SEEK.
#[unsafe(no_mangle)]
pub extern "C" fn nasturakh_reading_seek(
    session: &mut [u32],
    file: &[u32],
    buffer: &mut [u32],
    work: &mut [u32],
) -> u64
    ensures { returned result session.new file.now buffer.new work.new
        ≡ called_reading read_seek session.old file.now buffer.old work.old }
{
    creading::nasturakh_reading_seek(session, file, buffer, work)
}

// ADV.
#[unsafe(no_mangle)]
pub extern "C" fn nasturakh_reading_adv(
    session: &mut [u32],
    file: &[u32],
    buffer: &mut [u32],
    work: &mut [u32],
) -> u64
    ensures { returned result session.new file.now buffer.new work.new
        ≡ called_reading read_adv session.old file.now buffer.old work.old }
{
    creading::nasturakh_reading_adv(session, file, buffer, work)
}

// NSERT, refused.
#[unsafe(no_mangle)]
pub extern "C" fn nasturakh_reading_nsert(
    session: &mut [u32],
    file: &[u32],
    buffer: &[u32],
    work: &[u32],
) -> u64
    ensures { returned result session.new file.now buffer.now work.now
        ≡ called_reading read_alter session.old file.now buffer.now work.now }
{
    creading::nasturakh_reading_nsert(session, file, buffer, work)
}

// DLETE, refused.
#[unsafe(no_mangle)]
pub extern "C" fn nasturakh_reading_dlete(
    session: &mut [u32],
    file: &[u32],
    buffer: &[u32],
    work: &[u32],
) -> u64
    ensures { returned result session.new file.now buffer.now work.now
        ≡ called_reading read_alter session.old file.now buffer.now work.now }
{
    creading::nasturakh_reading_dlete(session, file, buffer, work)
}

// UPDAT, refused.
#[unsafe(no_mangle)]
pub extern "C" fn nasturakh_reading_updat(
    session: &mut [u32],
    file: &[u32],
    buffer: &[u32],
    work: &[u32],
) -> u64
    ensures { returned result session.new file.now buffer.now work.now
        ≡ called_reading read_alter session.old file.now buffer.now work.now }
{
    creading::nasturakh_reading_updat(session, file, buffer, work)
}

// XTEND, refused.
#[unsafe(no_mangle)]
pub extern "C" fn nasturakh_reading_xtend(
    session: &mut [u32],
    file: &[u32],
    buffer: &[u32],
    work: &[u32],
) -> u64
    ensures { returned result session.new file.now buffer.now work.now
        ≡ called_reading read_alter session.old file.now buffer.now work.now }
{
    creading::nasturakh_reading_xtend(session, file, buffer, work)
}

// VIEW: where the current text of a block lies, as the full set tells it.
#[unsafe(no_mangle)]
pub extern "C" fn nasturakh_reading_view(
    session: &[u32],
    file: &[u32],
    buffer: &[u32],
    block: usize,
) -> u64
    ensures { result ≡ viewed_reading session.now file.now buffer.now block }
{
    creading::nasturakh_reading_view(session, file, buffer, block)
}
