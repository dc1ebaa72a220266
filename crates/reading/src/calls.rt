// The calls of a reading session. None has a condition on what it is given.
// Each ends a refusal by its own match: one function over a closure of the steps learns nothing of the slices it captures (tried in capi).
// OPEN and VIEW stay beside those of searchfile: the session is another, and OPEN inspects a finished file. The test of CONTROL stands first in each
// test, as the definition `profile_checks` has it.
ghost use Rattle.std.specs.Prelude.{◌≡◌, [], length};
ghost use Rattle.numbers.specs.Refused.{tested};
ghost use Rattle.drum.specs.Parts.{part_of};
ghost use Rattle.rules.specs.Open.{open_checks};
ghost use Rattle.rules.specs.Close.{close_checks};
ghost use Rattle.face.specs.Checks.{plain_checks, keyed_checks};
ghost use Rattle.face.specs.Counted.{counted, counted_open};
ghost use Rattle.reading.specs.Reading.{as_session, given, answered, answered_open, read_open, read_close, read_seek, read_adv, read_alter};
ghost use Rattle.reading.specs.Reading.{profile_checks, read_shown, read_part};

use super::{Answer, ReadingSession, finished, steps};
use face::{refused_key, refused_plain};
use numbers::{DONE, Refusal, require};

impl ReadingSession {
    // What refuses OPEN before the file is looked at.
    fn open_checks(self, file: &[u32], buffer: &[u32], marks: &[u8]) -> Result<(), Refusal>
        ensures { tested result
            ≡ profile_checks self.desc (open_checks (given self file.now buffer.now []) marks.now) }
    {
        let p = self.desc;
        require(p.control == 1, Refusal::WrongSize)?;
        require(p.is_sized(file.len(), buffer.len()), Refusal::WrongSize)?;
        require(marks.len() == p.n, Refusal::WrongSize)?;
        require(!self.opened, Refusal::AlreadyOpen)
    }

    // OPEN: the file is inspected, and every block marked: 1 reached from the master, 0 never used.
    pub fn open(self, file: &[u32], buffer: &[u32], marks: &mut [u8]) -> Answer
        ensures { answered_open result file.now buffer.now marks.new
            ≡ counted_open (read_open (given self file.now buffer.now []) marks.old) }
    {
        match self.open_checks(file, buffer, marks) {
            Ok(()) => {
                if !finished::inspect(self.desc, file, marks) {
                    return self.refused(Refusal::BadFile);
                }
                Answer {
                    number: DONE,
                    transfers: 0,
                    session: self.at_rest(true),
                }
            }
            Err(refusal) => self.refused(refusal),
        }
    }

    // What refuses CLOSE: as nothing is flagged, no number of a file can.
    fn close_checks(self, file: &[u32], buffer: &[u32]) -> Result<(), Refusal>
        ensures { tested result
            ≡ profile_checks self.desc (close_checks (given self file.now buffer.now [])) }
    {
        let p = self.desc;
        require(p.control == 1, Refusal::WrongSize)?;
        require(p.is_sized(file.len(), buffer.len()), Refusal::WrongSize)?;
        require(self.opened, Refusal::IsClosed)
    }

    // CLOSE: the session is closed; there is nothing to write.
    pub fn close(self, file: &[u32], buffer: &[u32]) -> Answer
        ensures { answered result file.now buffer.now [] ≡ counted (read_close (given self file.now buffer.now [])) }
    {
        match self.close_checks(file, buffer) {
            Ok(()) => Answer {
                number: DONE,
                transfers: 0,
                session: self.at_rest(false),
            },
            Err(refusal) => self.refused(refusal),
        }
    }

    // What refuses SEEK: the profile's test, and then the face's.
    fn keyed_checks(self, file: &[u32], buffer: &[u32], work: &[u32]) -> Result<(), Refusal>
        ensures { tested result
            ≡ profile_checks
            self.desc
            (keyed_checks self.desc self.opened (length file.now) (length buffer.now) work.now self.desc.k) }
    {
        let p = self.desc;
        require(p.control == 1, Refusal::WrongSize)?;
        refused_key(p, self.opened, file.len(), buffer.len(), work, p.k)
    }

    // What refuses ADV and the altering calls.
    fn plain_checks(self, file: &[u32], buffer: &[u32], work: &[u32]) -> Result<(), Refusal>
        ensures { tested result
            ≡ profile_checks
            self.desc
            (plain_checks self.desc self.opened (length file.now) (length buffer.now) (length work.now)) }
    {
        let p = self.desc;
        require(p.control == 1, Refusal::WrongSize)?;
        refused_plain(p, self.opened, file.len(), buffer.len(), work.len())
    }

    // SEEK: the record with the workspace's key to the workspace.
    pub fn seek(self, file: &[u32], buffer: &mut [u32], work: &mut [u32]) -> Answer
        ensures { answered result file.now buffer.new work.new
            ≡ counted (read_seek (given self file.now buffer.old work.old)) }
    {
        match self.keyed_checks(file, buffer, work) {
            Ok(()) => {
                let done = steps::seek(self.at(), file, buffer, work);
                self.after(done, work)
            }
            Err(refusal) => self.refused(refusal),
        }
    }

    // ADV: the record with the least key above position to the workspace.
    pub fn adv(self, file: &[u32], buffer: &mut [u32], work: &mut [u32]) -> Answer
        ensures { answered result file.now buffer.new work.new
            ≡ counted (read_adv (given self file.now buffer.old work.old)) }
    {
        match self.plain_checks(file, buffer, work) {
            Ok(()) => {
                let position = self.position;
                let done = steps::adv(self.at(), self.placed, &position, file, buffer, work);
                self.after(done, work)
            }
            Err(refusal) => self.refused(refusal),
        }
    }

    // Whether VIEW of block b lends a text.
    pub fn shows(self, file: usize, buffer: usize, b: usize) -> bool
        ensures { result ≡ read_shown (as_session self) file buffer b }
    {
        let p = self.desc;
        p.control == 1 && self.opened && p.is_sized(file, buffer) && 1 <= b && b <= p.n
    }

    // VIEW: the current text of block b, a part of the buffer or of the file, or else an empty part.
    pub fn view<'a>(self, file: &'a [u32], buffer: &'a [u32], b: usize) -> &'a [u32]
        ensures { part_of result ≡ read_part (as_session self) file.entry buffer.entry b }
    {
        if !self.shows(file.len(), buffer.len(), b) {
            return &file[..0];
        }
        drum::text_part(self.desc, self.current, file, buffer, b)
    }

    // NSERT, DLETE, UPDAT and XTEND alike: none is made, whatever the workspace has.
    fn altering(self, file: &[u32], buffer: &[u32], work: &[u32]) -> Answer
        ensures { answered result file.now buffer.now work.now
            ≡ counted (read_alter (given self file.now buffer.now work.now)) }
    {
        match self.plain_checks(file, buffer, work) {
            Ok(()) => self.refused(Refusal::ReadingOnly),
            Err(refusal) => self.refused(refusal),
        }
    }

    // NSERT, refused.
    pub fn nsert(self, file: &[u32], buffer: &[u32], work: &[u32]) -> Answer
        ensures { answered result file.now buffer.now work.now
            ≡ counted (read_alter (given self file.now buffer.now work.now)) }
    {
        self.altering(file, buffer, work)
    }

    // DLETE, refused.
    pub fn dlete(self, file: &[u32], buffer: &[u32], work: &[u32]) -> Answer
        ensures { answered result file.now buffer.now work.now
            ≡ counted (read_alter (given self file.now buffer.now work.now)) }
    {
        self.altering(file, buffer, work)
    }

    // UPDAT, refused.
    pub fn updat(self, file: &[u32], buffer: &[u32], work: &[u32]) -> Answer
        ensures { answered result file.now buffer.now work.now
            ≡ counted (read_alter (given self file.now buffer.now work.now)) }
    {
        self.altering(file, buffer, work)
    }

    // XTEND, refused.
    pub fn xtend(self, file: &[u32], buffer: &[u32], work: &[u32]) -> Answer
        ensures { answered result file.now buffer.now work.now
            ≡ counted (read_alter (given self file.now buffer.now work.now)) }
    {
        self.altering(file, buffer, work)
    }
}
