// The calls on records: each is lent a workspace, and is its refusals and then its steps. They stay six bodies: a function that took the steps as a
// parameter would have to say what becomes of three lent slices under any steps, which is more than the three lines it spares.
// Each ends a refusal by its own match, as the calls on a whole file do: a closure of the steps learns nothing of the slices it captures (tried in capi).
ghost use Rattle.std.specs.Prelude.{◌≡◌};
ghost use Rattle.rules.specs.Adv.{adv as advanced};
ghost use Rattle.rules.specs.NsertDone.{nsert as inserted};
ghost use Rattle.rules.specs.Dlete.{dlete as deleted};
ghost use Rattle.rules.specs.XtendDone.{xtend as extended};
ghost use Rattle.rules.specs.Seek.{seek as sought, updat as updated};
ghost use Rattle.searchfile.specs.Promise.{given, counted, answered};

use super::{Answer, Session};
use face::{refused_key, refused_plain};

impl Session {
    // SEEK: the record with the workspace's key to the workspace.
    pub fn seek(self, file: &mut [u32], buffer: &mut [u32], work: &mut [u32]) -> Answer
        ensures { answered result file.new buffer.new work.new
            ≡ counted (sought (given self file.old buffer.old work.old)) }
    {
        let p = self.desc;
        match refused_key(p, self.opened, file.len(), buffer.len(), work, p.k) {
            Ok(()) => {
                let done = seek::seek(self.at(), file, buffer, work);
                self.after(done, work)
            }
            Err(refusal) => self.refused(refusal),
        }
    }

    // UPDAT: the record with the workspace's key replaced by the workspace.
    pub fn updat(self, file: &mut [u32], buffer: &mut [u32], work: &[u32]) -> Answer
        ensures { answered result file.new buffer.new work.now
            ≡ counted (updated (given self file.old buffer.old work.now)) }
    {
        let p = self.desc;
        match refused_key(p, self.opened, file.len(), buffer.len(), work, p.wpr) {
            Ok(()) => {
                let done = seek::updat(self.at(), file, buffer, work);
                self.after(done, work)
            }
            Err(refusal) => self.refused(refusal),
        }
    }

    // ADV: the record with the least key above position to the workspace.
    pub fn adv(self, file: &mut [u32], buffer: &mut [u32], work: &mut [u32]) -> Answer
        ensures { answered result file.new buffer.new work.new
            ≡ counted (advanced (given self file.old buffer.old work.old)) }
    {
        let p = self.desc;
        match refused_plain(p, self.opened, file.len(), buffer.len(), work.len()) {
            Ok(()) => {
                let position = self.position;
                let done = adv::adv(self.at(), self.placed, &position, file, buffer, work);
                self.after(done, work)
            }
            Err(refusal) => self.refused(refusal),
        }
    }

    // NSERT: the workspace's record put in, unless its key is there.
    pub fn nsert(self, file: &mut [u32], buffer: &mut [u32], work: &[u32]) -> Answer
        ensures { answered result file.new buffer.new work.now
            ≡ counted (inserted (given self file.old buffer.old work.now)) }
    {
        let p = self.desc;
        match refused_key(p, self.opened, file.len(), buffer.len(), work, p.wpr) {
            Ok(()) => {
                let done = nsert::nsert(self.at(), file, buffer, work);
                self.after(done, work)
            }
            Err(refusal) => self.refused(refusal),
        }
    }

    // DLETE: the record with the workspace's key taken out.
    pub fn dlete(self, file: &mut [u32], buffer: &mut [u32], work: &[u32]) -> Answer
        ensures { answered result file.new buffer.new work.now
            ≡ counted (deleted (given self file.old buffer.old work.now)) }
    {
        let p = self.desc;
        match refused_key(p, self.opened, file.len(), buffer.len(), work, p.k) {
            Ok(()) => {
                let done = dlete::dlete(self.at(), file, buffer, work);
                self.after(done, work)
            }
            Err(refusal) => self.refused(refusal),
        }
    }

    // XTEND: the workspace's record put in after all others, in ascending order.
    pub fn xtend(self, file: &mut [u32], buffer: &mut [u32], work: &[u32]) -> Answer
        ensures { answered result file.new buffer.new work.now
            ≡ counted (extended (given self file.old buffer.old work.now)) }
    {
        let p = self.desc;
        match refused_key(p, self.opened, file.len(), buffer.len(), work, p.wpr) {
            Ok(()) => {
                let done = xtend::xtend(self.at(), file, buffer, work);
                self.after(done, work)
            }
            Err(refusal) => self.refused(refusal),
        }
    }
}
