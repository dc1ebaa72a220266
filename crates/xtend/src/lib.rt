// XTEND: a record put in behind all others, before the end record. What it will do is planned first, from current texts alone; then it is done.
// What a call holds, the file and the buffer stay three parameters (why: crate acts).
#![tactic(auto)]

mod before;
mod deeds;
mod index;
mod last;
mod plan;

ghost use Rattle.std.specs.Prelude.{◌≡◌, length};
ghost use Rattle.drum.specs.Blocks.{Fitting};
ghost use Rattle.rules.specs.Told.{FollowsAt};
ghost use Rattle.rules.specs.XtendDone.{xtend_steps};

use drum::Seen;
use rules::{Done, Held};

// XTEND of the record in the workspace.
pub fn xtend(at: Held, file: &mut [u32], buffer: &mut [u32], work: &[u32]) -> Done
    requires { Fitting at.desc file.old buffer.old × (length work.now ≡ at.desc.wpr) }
    ensures { FollowsAt result xtend_steps at (file.old, file.new) (buffer.old, buffer.new) (work.now, work.now) }
{
    let v = Seen {
        desc: at.desc,
        current: at.current,
        file,
        buffer,
    };
    match plan::plan_xtend(v, at.flag, work) {
        Err(refusal) => at.refused(refusal),
        Ok(deed) => deeds::do_xtend(deed, at, file, buffer, work),
    }
}
