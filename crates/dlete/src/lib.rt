// DLETE, once the session and the workspace are checked.
#![tactic(auto)]

mod deeds;
mod plan;

ghost use Rattle.std.specs.Prelude.{◌≡◌, length};
ghost use Rattle.drum.specs.Blocks.{Fitting};
ghost use Rattle.rules.specs.Dlete.{dlete_steps};
ghost use Rattle.rules.specs.Told.{FollowsAt};

use drum::Seen;
use rules::{Done, Held};

// Takes the record with the workspace's key out: planned from current texts, then done.
pub fn dlete(at: Held, file: &mut [u32], buffer: &mut [u32], work: &[u32]) -> Done
    requires { Fitting at.desc file.old buffer.old × (length work.now ≡ at.desc.wpr) }
    ensures { FollowsAt result dlete_steps at (file.old, file.new) (buffer.old, buffer.new) (work.now, work.now) }
{
    let v = Seen {
        desc: at.desc,
        current: at.current,
        file,
        buffer,
    };
    match plan::plan_dlete(v, at.flag, work) {
        Ok(deed) => deeds::do_dlete(deed, at, file, buffer),
        Err(refusal) => at.refused(refusal),
    }
}
