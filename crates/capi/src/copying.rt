// The copying call for programs in other languages.
// Why the equal bodies are not one function over a closure: lib.rt.
ghost use Rattle.std.specs.Prelude.{◌≡◌};
ghost use Rattle.capi.specs.Copying.{returned_copy, called_copy};

use super::session::{WRONG_WORDS, packed, session_in};

// Copies the session's file into the second one with the new CONTROL; the session stays as it is.
pub fn nasturakh_copy(
    session: &[u32],
    file: &[u32],
    second: &mut [u32],
    control: usize,
    marks: &mut [u8],
) -> u64
    ensures { returned_copy result session.now file.now second.new marks.new
        ≡ called_copy session.now file.now second.old control marks.old }
{
    let Some(s) = session_in(session) else {
        return WRONG_WORDS;
    };
    let answer = s.copy_file(file, second, control, marks);
    packed(answer.transfers, answer.number)
}
