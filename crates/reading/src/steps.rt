// The steps of SEEK and ADV where nothing is flagged: blocks are brought, and none is written.
// They stay beside those of acts, seek and adv: those take a file that they may write, and this set promises that its file is lent to be read alone.
// What a call holds, the file and the buffer stay three parameters (why: crate acts).
ghost use Rattle.std.specs.Prelude.{◌≡◌, false, ◌≤◌, length};
ghost use Rattle.words.specs.Words.{part};
ghost use Rattle.drum.specs.Blocks.{Fitting};
ghost use Rattle.rules.specs.Lookup.{reached};
ghost use Rattle.rules.specs.Fits.{WayFits, LookFits, StepFits};
ghost use Rattle.rules.specs.Seek.{seek_done, seek_steps};
ghost use Rattle.rules.specs.Adv.{adv_done, adv_steps};
ghost use Rattle.rules.specs.Told.{Follows};
ghost use Rattle.acts.specs.Reach.{seen_by, come, came};

use acts::Arrived;
use drum::Seen;
use numbers::{DONE, NOT_FOUND};
use rules::{Done, Held, Look, Step, Way};

// Reaches the block at the end of the way.
fn reach(at: Held, file: &[u32], buffer: &mut [u32], way: Way) -> Arrived
    requires { Fitting at.desc file.now buffer.old × WayFits (seen_by at file.now buffer.old) false way }
    ensures { came result file.now buffer.new ≡ come (reached (seen_by at file.now buffer.old) false way) }
{
    match way {
        Way::Here => Arrived {
            transfers: 0,
            current: at.current,
            flag: false,
        },
        Way::By(w) => {
            acts::load(at, file, buffer, w.detail);
            Arrived {
                transfers: 2,
                current: w.detail,
                flag: false,
            }
        }
    }
}

// SEEK, once the key is looked up.
fn act_seek(l: Look, at: Held, file: &[u32], buffer: &mut [u32], work: &mut [u32]) -> Done
    requires { Fitting at.desc file.now buffer.old
        × (length work.old ≡ at.desc.wpr)
        × LookFits (seen_by at file.now buffer.old) false l }
    ensures { Follows result (λ v flag work. seek_done v flag work l)
        at.desc at.current false (file.now, file.now) (buffer.old, buffer.new) (work.old, work.new) }
{
    match l {
        Look::Found(way, i) => {
            let here = reach(at, file, buffer, way);
            acts::give(at.desc, buffer, work, i);
            here.done(DONE, here.flag, true)
        }
        Look::Missing(w) => {
            let here = reach(at, file, buffer, Way::By(w));
            here.done(NOT_FOUND, here.flag, false)
        }
    }
}

// SEEK.
pub fn seek(at: Held, file: &[u32], buffer: &mut [u32], work: &mut [u32]) -> Done
    requires { (at.flag ≡ false) × Fitting at.desc file.now buffer.old × (length work.old ≡ at.desc.wpr) }
    ensures { Follows result seek_steps at.desc at.current false (file.now, file.now) (buffer.old, buffer.new) (work.old, work.new) }
{
    let v = Seen {
        desc: at.desc,
        current: at.current,
        file,
        buffer,
    };
    match lookup::look(v, false, work) {
        Ok(l) => act_seek(l, at, file, buffer, work),
        Err(refusal) => at.refused(refusal),
    }
}

// ADV, once the record is found.
fn act_adv(s: Step, at: Held, file: &[u32], buffer: &mut [u32], work: &mut [u32]) -> Done
    requires { Fitting at.desc file.now buffer.old
        × (length work.old ≡ at.desc.wpr)
        × StepFits (seen_by at file.now buffer.old) false s }
    ensures { Follows result (λ v flag work. adv_done v flag s) at.desc at.current false (file.now, file.now) (buffer.old, buffer.new) (work.old, work.new) }
{
    match s {
        Step::At(way, i) => {
            let here = reach(at, file, buffer, way);
            adv::hand_over(at.desc, here, buffer, work, i)
        }
        Step::Beyond(w, x, i) => {
            acts::load(at, file, buffer, x.detail);
            let here = Arrived {
                transfers: adv::reads_beyond(w, x),
                current: x.detail,
                flag: false,
            };
            adv::hand_over(at.desc, here, buffer, work, i)
        }
    }
}

// ADV.
// `placed` and `position` stay two (why: adv's `plan_adv`).
pub fn adv(
    at: Held,
    placed: bool,
    position: &[u32],
    file: &[u32],
    buffer: &mut [u32],
    work: &mut [u32],
) -> Done
    requires { (at.flag ≡ false)
        × Fitting at.desc file.now buffer.old
        × (length work.old ≡ at.desc.wpr)
        × (at.desc.k ≤ length position.now) }
    ensures { Follows result (λ v flag work. adv_steps v flag placed (part 0 at.desc.k position.now))
        at.desc at.current false (file.now, file.now) (buffer.old, buffer.new) (work.old, work.new) }
{
    let v = Seen {
        desc: at.desc,
        current: at.current,
        file,
        buffer,
    };
    match adv::plan_adv(v, false, placed, position) {
        Ok(s) => act_adv(s, at, file, buffer, work),
        Err(refusal) => at.refused(refusal),
    }
}
