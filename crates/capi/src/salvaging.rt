// Salvage, for programs in other languages. The sum of the transfers may need more than 32 bits, so the number is returned alone and the two figures go to
// words that are lent for them.
// Why the equal bodies are not one function over a closure: lib.rt.
ghost use Rattle.std.specs.Prelude.{◌≡◌};
ghost use Rattle.capi.specs.Salvage.{returned_salvage, called_salvage};

use super::session::{TOLD_WORDS, WRONG_WORDS, session_in};

// Builds a fresh file of the records in the copy, and reports what was not carried; tells the transfers and the lines. Of the session only the
// parameters are used.
pub fn nasturakh_salvage(
    session: &[u32],
    copy: &[u32],
    fresh: &mut [u32],
    buffer: &mut [u32],
    report: &mut [u32],
    told: &mut [u64],
) -> u64
    ensures { returned_salvage result fresh.new buffer.new report.new told.new
        ≡ called_salvage session.now copy.now fresh.old buffer.old report.old told.old }
{
    let Some(s) = session_in(session) else {
        return WRONG_WORDS;
    };
    if told.len() != TOLD_WORDS {
        return WRONG_WORDS;
    }
    let done = salvage::salvage(s.desc, copy, fresh, buffer, report);
    told[0] = done.transfers as u64;
    told[1] = done.lines as u64;
    u64::from(done.number)
}
