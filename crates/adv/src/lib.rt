// ADV, once the session and the workspace are checked.
// What a call holds, the file and the buffer stay three parameters (why: crate acts).
#![tactic(auto)]

mod deeds;
mod plan;

ghost use Rattle.std.specs.Prelude.{◌≡◌, ◌≤◌, length};
ghost use Rattle.words.specs.Words.{part};
ghost use Rattle.drum.specs.Blocks.{Fitting};
ghost use Rattle.rules.specs.Adv.{adv_steps};
ghost use Rattle.rules.specs.Told.{FollowsAt};

pub use deeds::{hand_over, reads_beyond};
use drum::Seen;
pub use plan::plan_adv;
use rules::{Done, Held};

// Brings the record with the least key above position: planned from current texts, then done.
// `placed` and `position` stay two (why: `plan_adv`).
pub fn adv(
    at: Held,
    placed: bool,
    position: &[u32],
    file: &mut [u32],
    buffer: &mut [u32],
    work: &mut [u32],
) -> Done
    requires { Fitting at.desc file.old buffer.old
        × (length work.old ≡ at.desc.wpr)
        × (at.desc.k ≤ length position.now) }
    ensures { FollowsAt result (λ v flag work. adv_steps v flag placed (part 0 at.desc.k position.now)) at
        (file.old, file.new) (buffer.old, buffer.new) (work.old, work.new) }
{
    let v = Seen {
        desc: at.desc,
        current: at.current,
        file,
        buffer,
    };
    match plan::plan_adv(v, at.flag, placed, position) {
        Ok(s) => deeds::do_adv(s, at, file, buffer, work),
        Err(refusal) => at.refused(refusal),
    }
}
