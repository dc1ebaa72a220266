// The copying call of a session: its file into a second one with another CONTROL.
// (Why it ends a refusal by its own match: records.rt.)
ghost use Rattle.std.specs.Prelude.{◌≡◌, []};
ghost use Rattle.rules.specs.Copy.{copy_file};
ghost use Rattle.searchfile.specs.Promise.{given};
ghost use Rattle.searchfile.specs.Copying.{counted_copy, answered_copy};

use super::{Answer, Session};
use numbers::DONE;

impl Session {
    // Writes every word of the second file, or none. The session stays as it is: it describes the first file, which is only read.
    pub fn copy_file(
        self,
        file: &[u32],
        second: &mut [u32],
        control: usize,
        marks: &mut [u8],
    ) -> Answer
        ensures { answered_copy result file.now second.new marks.new
            ≡ counted_copy (copy_file (given self file.now [] []) second.old control marks.old) }
    {
        match copy::copy_file(self.desc, self.opened, control, file, second, marks) {
            Ok(()) => Answer {
                number: DONE,
                transfers: 0,
                session: self,
            },
            Err(refusal) => self.refused(refusal),
        }
    }
}
