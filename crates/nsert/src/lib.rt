// NSERT: a record put in. What it will do is decided first, from current texts alone; then it is done.
#![tactic(auto)]

pub mod deeds;
pub mod plan;
mod splits;

ghost use Rattle.std.specs.Prelude.{◌≡◌, length};
ghost use Rattle.drum.specs.Blocks.{Fitting};
ghost use Rattle.rules.specs.NsertDone.{nsert_steps};
ghost use Rattle.rules.specs.Told.{FollowsAt};

use drum::Seen;
use rules::{Done, Held};

// NSERT of the record in the workspace.
pub fn nsert(at: Held, file: &mut [u32], buffer: &mut [u32], work: &[u32]) -> Done
    requires { Fitting at.desc file.old buffer.old × (length work.now ≡ at.desc.wpr) }
    ensures { FollowsAt result nsert_steps at (file.old, file.new) (buffer.old, buffer.new) (work.now, work.now) }
{
    let v = Seen {
        desc: at.desc,
        current: at.current,
        file,
        buffer,
    };
    deeds::do_plan(plan::plan_nsert(v, at.flag, work), at, file, buffer, work)
}
