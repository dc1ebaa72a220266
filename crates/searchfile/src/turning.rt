// The turning call of a session: its file from one block form to the other, where it lies.
// (Why it ends a refusal by its own match: records.rt.)
ghost use Rattle.std.specs.Prelude.{◌≡◌, []};
ghost use Rattle.rules.specs.Turning.{turn_file};
ghost use Rattle.searchfile.specs.Promise.{given};
ghost use Rattle.searchfile.specs.Turning.{counted_turn, answered_turn};

use super::{Answer, Session};
use numbers::DONE;

impl Session {
    // Hands the session back with the other form where it answers 0; all else of it stays as it is. A buffer is not lent: what stands in it is of the old
    // form, and is not looked at again, as the session is closed.
    pub fn turn(self, file: &mut [u32], marks: &mut [u8]) -> Answer
        ensures { answered_turn result file.new marks.new ≡ counted_turn (turn_file (given self file.old [] []) marks.old) }
    {
        match turn::turn(self.desc, self.opened, file, marks) {
            Ok(desc) => Answer {
                number: DONE,
                transfers: 0,
                session: Session { desc, ..self },
            },
            Err(refusal) => self.refused(refusal),
        }
    }
}
