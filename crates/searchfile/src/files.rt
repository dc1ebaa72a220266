// The calls on a whole file, and VIEW: no workspace is lent.
// (Why each ends a refusal by its own match: records.rt.)
ghost use Rattle.std.specs.Prelude.{◌≡◌, []};
ghost use Rattle.rules.specs.Open.{open_file, open_checks};
ghost use Rattle.rules.specs.Close.{close as closed, close_checks};
ghost use Rattle.numbers.specs.Refused.{tested};
ghost use Rattle.searchfile.specs.Promise.{held, given, counted, answered, creating, counted_open, answered_open};
ghost use Rattle.searchfile.specs.Parts.{part_of, shown, view_part};

use super::{Answer, Session};
use drum::Seen;
use numbers::{DONE, Refusal, require};

impl Session {
    // CREATE: writes a new file with the session's parameters, every word of it. It has no session: whatever this one is, it stays so.
    pub fn create(self, file: &mut [u32]) -> Answer
        ensures { answered result file.new [] [] ≡ counted (creating (given self file.old [] [])) }
    {
        let p = self.desc;
        if !p.is_good() || file.len() != p.file_size() {
            return self.refused(Refusal::WrongSize);
        }
        layout::lay_out(p, file);
        Answer {
            number: DONE,
            transfers: 0,
            session: self,
        }
    }

    // What refuses OPEN before the file is looked at.
    fn open_checks(self, file: &[u32], buffer: &[u32], marks: &[u8]) -> Result<(), Refusal>
        ensures { tested result ≡ open_checks (given self file.now buffer.now []) marks.now }
    {
        require(
            self.desc.is_sized(file.len(), buffer.len()),
            Refusal::WrongSize,
        )?;
        require(marks.len() == self.desc.n, Refusal::WrongSize)?;
        require(!self.opened, Refusal::AlreadyOpen)
    }

    // OPEN: the file is inspected, and every block marked: 1 reached from the master, 2 chained, 0 never used.
    pub fn open_file(self, file: &[u32], buffer: &[u32], marks: &mut [u8]) -> Answer
        ensures { answered_open result file.now buffer.now marks.new
            ≡ counted_open (open_file (given self file.now buffer.now []) marks.old) }
    {
        match self.open_checks(file, buffer, marks) {
            Ok(()) => {
                if !layout::inspect(self.desc, file, marks) {
                    return self.refused(Refusal::BadFile);
                }
                Answer {
                    number: DONE,
                    transfers: 0,
                    session: self.at_rest(true),
                }
            }
            Err(refusal) => self.refused(refusal),
        }
    }

    // CLOSE: writes a flagged buffer to its block; the session is closed.
    pub fn close(self, file: &mut [u32], buffer: &[u32]) -> Answer
        ensures { answered result file.new buffer.now [] ≡ counted (closed (given self file.old buffer.now [])) }
    {
        match self.close_checks(file, buffer) {
            Ok(()) => {
                let transfers = acts::flush(self.at(), file, buffer);
                Answer {
                    number: DONE,
                    transfers,
                    session: self.at_rest(false),
                }
            }
            Err(refusal) => self.refused(refusal),
        }
    }

    // What refuses CLOSE.
    fn close_checks(self, file: &[u32], buffer: &[u32]) -> Result<(), Refusal>
        ensures { tested result ≡ close_checks (given self file.now buffer.now []) }
    {
        require(
            self.desc.is_sized(file.len(), buffer.len()),
            Refusal::WrongSize,
        )?;
        require(self.opened, Refusal::IsClosed)?;
        let v = Seen {
            desc: self.desc,
            current: self.current,
            file,
            buffer,
        };
        require(lookup::can_flush(v, self.flag), Refusal::BadFile)
    }

    // Whether VIEW of block b lends a text: not for a closed session, wrong sizes, or a block outside 1..N.
    pub fn shows(self, file: usize, buffer: usize, b: usize) -> bool
        ensures { result ≡ shown (held self) file buffer b }
    {
        let p = self.desc;
        self.opened && p.is_sized(file, buffer) && 1 <= b && b <= p.n
    }

    // VIEW: the current text of block b, a part of the buffer or of the file, or else an empty part.
    pub fn view<'a>(self, file: &'a [u32], buffer: &'a [u32], b: usize) -> &'a [u32]
        ensures { part_of result ≡ view_part (held self) file.entry buffer.entry b }
    {
        if !self.shows(file.len(), buffer.len(), b) {
            return &file[..0];
        }
        drum::text_part(self.desc, self.current, file, buffer, b)
    }
}
