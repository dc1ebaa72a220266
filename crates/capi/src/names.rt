// The name register for programs in other languages: the register's calls, with the session as words. A listing is `nasturakh_adv`.
// Why the equal bodies are not one function over a closure: lib.rt.
ghost use Rattle.std.specs.Prelude.{◌≡◌};
ghost use Rattle.register.specs.Register.{enter, ask, romanise, hold, free};
ghost use Rattle.capi.specs.Calls.{returned, called};

use super::session::{WRONG_WORDS, session_in, told};

// Enters the workspace's key as a raw name.
pub fn nasturakh_enter(
    session: &mut [u32],
    file: &mut [u32],
    buffer: &mut [u32],
    work: &mut [u32],
) -> u64
    ensures { returned result session.new file.new buffer.new work.new
        ≡ called enter session.old file.old buffer.old work.old }
{
    let Some(s) = session_in(session) else {
        return WRONG_WORDS;
    };
    let answer = register::enter(s, file, buffer, work);
    told(session, answer)
}

// Asks for a name: its record to the workspace.
pub fn nasturakh_ask(
    session: &mut [u32],
    file: &mut [u32],
    buffer: &mut [u32],
    work: &mut [u32],
) -> u64
    ensures { returned result session.new file.new buffer.new work.new
        ≡ called ask session.old file.old buffer.old work.old }
{
    let Some(s) = session_in(session) else {
        return WRONG_WORDS;
    };
    let answer = register::ask(s, file, buffer, work);
    told(session, answer)
}

// Romanises a raw name with the spelling.
pub fn nasturakh_romanise(
    session: &mut [u32],
    file: &mut [u32],
    buffer: &mut [u32],
    work: &mut [u32],
    spelling: &[u32],
) -> u64
    ensures { returned result session.new file.new buffer.new work.new
        ≡ called (romanise spelling.now) session.old file.old buffer.old work.old }
{
    let Some(s) = session_in(session) else {
        return WRONG_WORDS;
    };
    let answer = register::romanise(s, file, buffer, work, spelling);
    told(session, answer)
}

// Holds a romanised name.
pub fn nasturakh_hold(
    session: &mut [u32],
    file: &mut [u32],
    buffer: &mut [u32],
    work: &mut [u32],
) -> u64
    ensures { returned result session.new file.new buffer.new work.new
        ≡ called hold session.old file.old buffer.old work.old }
{
    let Some(s) = session_in(session) else {
        return WRONG_WORDS;
    };
    let answer = register::hold(s, file, buffer, work);
    told(session, answer)
}

// Frees a held name.
pub fn nasturakh_free_name(
    session: &mut [u32],
    file: &mut [u32],
    buffer: &mut [u32],
    work: &mut [u32],
) -> u64
    ensures { returned result session.new file.new buffer.new work.new
        ≡ called free session.old file.old buffer.old work.old }
{
    let Some(s) = session_in(session) else {
        return WRONG_WORDS;
    };
    let answer = register::free(s, file, buffer, work);
    told(session, answer)
}
