// The name register for programs in other languages: the register's calls, with the session as words. A listing is `nasturakh_adv`.
ghost use Rattle.std.specs.Prelude.{◌≡◌};
ghost use Rattle.register.specs.Register.{enter, ask, romanise, hold, free};
ghost use Rattle.capi.specs.Calls.{returned, called};

// Enters the workspace's key as a raw name.
#[unsafe(no_mangle)]
pub extern "C" fn nasturakh_enter(
    session: &mut [u32],
    file: &mut [u32],
    buffer: &mut [u32],
    work: &mut [u32],
) -> u64
    ensures { returned result session.new file.new buffer.new work.new
        ≡ called enter session.old file.old buffer.old work.old }
{
    capi::names::nasturakh_enter(session, file, buffer, work)
}

// Asks for a name: its record to the workspace.
#[unsafe(no_mangle)]
pub extern "C" fn nasturakh_ask(
    session: &mut [u32],
    file: &mut [u32],
    buffer: &mut [u32],
    work: &mut [u32],
) -> u64
    ensures { returned result session.new file.new buffer.new work.new
        ≡ called ask session.old file.old buffer.old work.old }
{
    capi::names::nasturakh_ask(session, file, buffer, work)
}

// Romanises a raw name with the spelling.
#[unsafe(no_mangle)]
pub extern "C" fn nasturakh_romanise(
    session: &mut [u32],
    file: &mut [u32],
    buffer: &mut [u32],
    work: &mut [u32],
    spelling: &[u32],
) -> u64
    ensures { returned result session.new file.new buffer.new work.new
        ≡ called (romanise spelling.now) session.old file.old buffer.old work.old }
{
    capi::names::nasturakh_romanise(session, file, buffer, work, spelling)
}

// Holds a romanised name.
#[unsafe(no_mangle)]
pub extern "C" fn nasturakh_hold(
    session: &mut [u32],
    file: &mut [u32],
    buffer: &mut [u32],
    work: &mut [u32],
) -> u64
    ensures { returned result session.new file.new buffer.new work.new
        ≡ called hold session.old file.old buffer.old work.old }
{
    capi::names::nasturakh_hold(session, file, buffer, work)
}

// Frees a held name.
#[unsafe(no_mangle)]
pub extern "C" fn nasturakh_free_name(
    session: &mut [u32],
    file: &mut [u32],
    buffer: &mut [u32],
    work: &mut [u32],
) -> u64
    ensures { returned result session.new file.new buffer.new work.new
        ≡ called free session.old file.old buffer.old work.old }
{
    capi::names::nasturakh_free_name(session, file, buffer, work)
}
