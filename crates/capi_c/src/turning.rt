// The turning call for programs in other languages.
ghost use Rattle.std.specs.Prelude.{◌≡◌};
ghost use Rattle.capi.specs.Turning.{returned_turn, called_turn};

// Turns the session's file to the other block form; all else of the session stays as it is. Words without a place for the form are refused.
#[unsafe(no_mangle)]
pub extern "C" fn nasturakh_turn(session: &mut [u32], file: &mut [u32], marks: &mut [u8]) -> u64
    ensures { returned_turn result session.new file.new marks.new
        ≡ called_turn session.old file.old marks.old }
{
    capi::turning::nasturakh_turn(session, file, marks)
}
