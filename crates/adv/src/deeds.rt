// The record that ADV comes to, brought to the workspace.
// What a call holds, the file and the buffer stay three parameters (why: crate acts).
ghost use Rattle.std.specs.Prelude.{◌≡◌, ◌+◌, ◌≤◌, length};
ghost use Rattle.table.specs.Tables.{place, row};
ghost use Rattle.drum.specs.Params.{detail_shape};
ghost use Rattle.drum.specs.Blocks.{Fitting};
ghost use Rattle.rules.specs.Fits.{StepFits};
ghost use Rattle.rules.specs.Adv.{adv_reads, adv_done};
ghost use Rattle.rules.specs.Told.{FollowsAt};
ghost use Rattle.acts.specs.Reach.{seen_by};
ghost use Rattle.adv.specs.Answers.{handed};

use acts::Arrived;
use drum::Description;
use numbers::{AT_END, DONE};
use rules::{Done, Held, Path, Step};

const TOP_WORD: u32 = 262143;

// The blocks read when the record is in the next detail block: its index block too if it is in the next section.
pub fn reads_beyond(w: Path, x: Path) -> usize
    ensures { result ≡ length (adv_reads w x) }
{
    if x.section == w.section { 3 } else { 4 }
}

// The record i of the buffer to the workspace, with what was done before; the end record has its own number and leaves position.
pub fn hand_over(p: Description, here: Arrived, buffer: &[u32], work: &mut [u32], i: usize) -> Done
    requires { (place (detail_shape p) i + p.wpr ≤ length buffer.now) × (length work.old ≡ p.wpr) × (p.k ≤ p.wpr) }
    ensures { (result ≡ handed p buffer.now i here) × (work.new ≡ row (detail_shape p) buffer.now i) }
{
    acts::give(p, buffer, work, i);
    let end = words::all_are(buffer, 1 + i * p.wpr, p.k, TOP_WORD);
    let number = if end { AT_END } else { DONE };
    here.done(number, here.flag, !end)
}

// ADV, once the record is found.
pub fn do_adv(s: Step, at: Held, file: &mut [u32], buffer: &mut [u32], work: &mut [u32]) -> Done
    requires { Fitting at.desc file.old buffer.old
        × (length work.old ≡ at.desc.wpr)
        × StepFits (seen_by at file.old buffer.old) at.flag s }
    ensures { FollowsAt result (λ v flag work. adv_done v flag s) at (file.old, file.new) (buffer.old, buffer.new) (work.old, work.new) }
{
    match s {
        Step::At(way, i) => {
            let here = acts::reach(at, file, buffer, way);
            hand_over(at.desc, here, buffer, work, i)
        }
        Step::Beyond(w, x, i) => {
            let wrote = acts::bring(at, file, buffer, x.detail);
            let here = Arrived {
                transfers: wrote + reads_beyond(w, x),
                current: x.detail,
                flag: false,
            };
            hand_over(at.desc, here, buffer, work, i)
        }
    }
}
