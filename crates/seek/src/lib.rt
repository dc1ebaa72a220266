// SEEK and UPDAT, once the session and the workspace are checked.
// What a call holds, the file and the buffer stay three parameters (why: crate acts).
#![tactic(auto)]

ghost use Rattle.std.specs.Prelude.{◌≡◌, length};
ghost use Rattle.drum.specs.Blocks.{Fitting};
ghost use Rattle.rules.specs.Fits.{LookFits};
ghost use Rattle.rules.specs.Seek.{seek_done, seek_steps, updat_done, updat_steps};
ghost use Rattle.rules.specs.Told.{FollowsAt};
ghost use Rattle.acts.specs.Reach.{seen_by};

use drum::Seen;
use numbers::{DONE, NOT_FOUND};
use rules::{Done, Held, Look, Way};

// SEEK, once the key is looked up.
fn act_seek(l: Look, at: Held, file: &mut [u32], buffer: &mut [u32], work: &mut [u32]) -> Done
    requires { Fitting at.desc file.old buffer.old
        × (length work.old ≡ at.desc.wpr)
        × LookFits (seen_by at file.old buffer.old) at.flag l }
    ensures { FollowsAt result (λ v flag work. seek_done v flag work l) at (file.old, file.new) (buffer.old, buffer.new) (work.old, work.new) }
{
    match l {
        Look::Found(way, i) => {
            let here = acts::reach(at, file, buffer, way);
            acts::give(at.desc, buffer, work, i);
            here.done(DONE, here.flag, true)
        }
        Look::Missing(w) => acts::stop(at, file, buffer, Way::By(w), NOT_FOUND),
    }
}

// SEEK.
pub fn seek(at: Held, file: &mut [u32], buffer: &mut [u32], work: &mut [u32]) -> Done
    requires { Fitting at.desc file.old buffer.old × (length work.old ≡ at.desc.wpr) }
    ensures { FollowsAt result seek_steps at (file.old, file.new) (buffer.old, buffer.new) (work.old, work.new) }
{
    let v = Seen {
        desc: at.desc,
        current: at.current,
        file,
        buffer,
    };
    match lookup::look(v, at.flag, work) {
        Ok(l) => act_seek(l, at, file, buffer, work),
        Err(refusal) => at.refused(refusal),
    }
}

// UPDAT, once the key is looked up. It stays beside act_seek: a closure for what is done with the record would say more than it spares.
fn act_updat(l: Look, at: Held, file: &mut [u32], buffer: &mut [u32], work: &[u32]) -> Done
    requires { Fitting at.desc file.old buffer.old
        × (length work.now ≡ at.desc.wpr)
        × LookFits (seen_by at file.old buffer.old) at.flag l }
    ensures { FollowsAt result (λ v flag work. updat_done v flag work l) at (file.old, file.new) (buffer.old, buffer.new) (work.now, work.now) }
{
    match l {
        Look::Found(way, i) => {
            let here = acts::reach(at, file, buffer, way);
            let p = at.desc;
            table::replace_row(p.detail_shape(), buffer, i, work, 0, p.wpr);
            here.done(DONE, true, true)
        }
        Look::Missing(w) => acts::stop(at, file, buffer, Way::By(w), NOT_FOUND),
    }
}

// UPDAT.
pub fn updat(at: Held, file: &mut [u32], buffer: &mut [u32], work: &[u32]) -> Done
    requires { Fitting at.desc file.old buffer.old × (length work.now ≡ at.desc.wpr) }
    ensures { FollowsAt result updat_steps at (file.old, file.new) (buffer.old, buffer.new) (work.now, work.now) }
{
    let v = Seen {
        desc: at.desc,
        current: at.current,
        file,
        buffer,
    };
    match lookup::look(v, at.flag, work) {
        Ok(l) => act_updat(l, at, file, buffer, work),
        Err(refusal) => at.refused(refusal),
    }
}
