// The turning call for programs in other languages.
// Why the equal bodies are not one function over a closure: lib.rt.
ghost use Rattle.std.specs.Prelude.{◌≡◌};
ghost use Rattle.capi.specs.Turning.{returned_turn, called_turn};

use super::session::{FORM_WORDS, WRONG_WORDS, packed, put_form, session_in};

// Turns the session's file to the other block form; all else of the session stays as it is. Words without a place for the form are refused.
pub fn nasturakh_turn(session: &mut [u32], file: &mut [u32], marks: &mut [u8]) -> u64
    ensures { returned_turn result session.new file.new marks.new
        ≡ called_turn session.old file.old marks.old }
{
    let Some(s) = session_in(session) else {
        return WRONG_WORDS;
    };
    if session.len() != FORM_WORDS {
        return WRONG_WORDS;
    }
    let answer = s.turn(file, marks);
    put_form(session, answer.session.desc.form);
    packed(answer.transfers, answer.number)
}
