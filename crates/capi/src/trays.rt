// A tray of records put in by one call, for programs in other languages. The sum of the transfers may need more than 32 bits, so the number is
// returned alone and the two figures go to words that are lent for them.
// Why the equal bodies are not one function over a closure: lib.rt.
ghost use Rattle.std.specs.Prelude.{◌≡◌};
ghost use Rattle.capi.specs.Tray.{returned_tray, called_tray};

use super::session::{TOLD_WORDS, WRONG_WORDS, put_session, session_in};

// Puts in the records of the tray; tells the transfers and how many were stored.
pub fn nasturakh_nsert_tray(
    session: &mut [u32],
    file: &mut [u32],
    buffer: &mut [u32],
    tray: &[u32],
    told: &mut [u64],
) -> u64
    ensures { returned_tray result session.new file.new buffer.new told.new
        ≡ called_tray session.old file.old buffer.old tray.now told.old }
{
    let Some(s) = session_in(session) else {
        return WRONG_WORDS;
    };
    if told.len() != TOLD_WORDS {
        return WRONG_WORDS;
    }
    let trayed = tray::nsert_tray(s, file, buffer, tray);
    put_session(session, trayed.session);
    told[0] = trayed.transfers as u64;
    told[1] = trayed.stored as u64;
    u64::from(trayed.number)
}
