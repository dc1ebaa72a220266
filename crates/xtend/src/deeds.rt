// What XTEND does once it is planned.
// What a call holds, the file and the buffer stay three parameters (why: crate acts).
ghost use Rattle.std.specs.Prelude.{◌≡◌, ◌≤◌, length};
ghost use Rattle.drum.specs.Blocks.{Block};
ghost use Rattle.rules.specs.Lookup.{reached};
ghost use Rattle.rules.specs.Told.{FollowsAt};
ghost use Rattle.rules.specs.XtendDone.{extend_done};
ghost use Rattle.acts.specs.Reach.{seen_by};
ghost use Rattle.xtend.specs.Fits.{Given, EndIn, LastTakes, StartFits, NewFits, SectionFits, ExtendFits};
ghost use Rattle.xtend.specs.Steps.{counting, lead, read_of, room_done, swapped, started_file, new_all, new_left, section_all, section_left};

use super::index::{extend_in, start_section};
use drum::Description;
use nsert::deeds::do_nsert;
use rules::{Done, Extend, Held, Path, Taken, Way};

// A block that the end record starts: the way to the last block, the path to it, and the new block.
#[derive(Clone, Copy)]
pub struct Start {
    pub way: Way,
    pub path: Path,
    pub new: Taken,
}

// How many reads an index block is that is read besides: 0 is no block.
// 0 and no Option: the number comes from a plan, whose variants are the definitions'.
#[tactic(auto, unfolding(crate::specs::Steps::read_of))]
fn reads_of(x: usize) -> usize
    ensures { result ≡ length (read_of x) }
{
    usize::from(x != 0)
}

// How many transfers reach the last block and read its index block, besides the write of a flagged buffer, which NSERT counts.
fn lead_of(way: Way) -> usize
    ensures { result ≡ lead way }
{
    match way {
        Way::Here => 1,
        Way::By(_) => 3,
    }
}

// What was done, with these transfers counted besides.
fn count_more(d: Done, more: usize) -> Done
    requires { (d.transfers ≤ 8) × (more ≤ 3) }
    ensures { result ≡ counting more d }
{
    Done {
        transfers: d.transfers + more,
        ..d
    }
}

// The record goes before the end record of the last block.
fn store_last(
    at: Held,
    file: &mut [u32],
    buffer: &mut [u32],
    work: &[u32],
    way: Way,
    number: u32,
) -> Done
    requires { Given at file.old buffer.old work.now × LastTakes (seen_by at file.old buffer.old) at.flag way }
    ensures { FollowsAt result (λ v flag work. room_done v flag work way number) at (file.old, file.new) (buffer.old, buffer.new) (work.now, work.now) }
{
    let p = at.desc;
    let here = acts::reach(at, file, buffer, way);
    let n = drum::kinds::records_in(p, buffer);
    table::insert_row(p.detail_shape(), buffer, n - 1, work, 0);
    here.done(number, true, true)
}

// The end record of the text in the buffer starts block b, and the record takes its place in the old block.
fn swap_end(
    p: Description,
    file: &mut [u32],
    buffer: &mut [u32],
    work: &[u32],
    b: usize,
    old: usize,
)
    requires { EndIn p file.old buffer.old work.now × Block p b × Block p old }
    ensures { file.new ≡ swapped p b old work.now buffer.old file.old }
{
    let wpr = p.wpr;
    let h = p.detail_shape();
    let i = drum::kinds::records_in(p, buffer) - 1;
    let from = 1 + i * wpr;
    let end = from + wpr;
    drum::inside::lay_block(p, file, b, h.tag + 1, &buffer[from..end]);
    table::replace_row(h, buffer, i, work, 0, wpr);
    drum::write_block(p, file, buffer, old);
}

// The last block and the new block after it, both written.
fn start_block(at: Held, file: &mut [u32], buffer: &mut [u32], work: &[u32], s: Start) -> usize
    requires { Given at file.old buffer.old work.now × StartFits (seen_by at file.old buffer.old) at.flag s }
    ensures { (result ≡ length (reached (seen_by at file.old buffer.old) at.flag s.way).moves)
        × (file.new ≡ started_file (seen_by at file.old buffer.old) at.flag s work.now) }
{
    let way = s.way;
    let w = s.path;
    let d = s.new;
    let moved = free::prepare(at, file, buffer, way, w, d);
    swap_end(at.desc, file, buffer, work, d.block, w.detail);
    moved
}

// All that is stored in the file for a new block whose index block has room.
fn write_new(at: Held, file: &mut [u32], buffer: &mut [u32], work: &[u32], s: Start) -> usize
    requires { Given at file.old buffer.old work.now × NewFits (seen_by at file.old buffer.old) at.flag s }
    ensures { (result ≡ length (new_all (seen_by at file.old buffer.old) at.flag s work.now))
        × (file.new ≡ new_left (seen_by at file.old buffer.old) at.flag s work.now) }
{
    let w = s.path;
    let d = s.new;
    let moved = start_block(at, file, buffer, work, s);
    extend_in(at.desc, file, w.index, work, d.block);
    moved + 4
}

// All that is stored in the file for a new block whose index block is full: x is the new index block. What it shares with `write_new` is `start_block`.
fn write_both(
    at: Held,
    file: &mut [u32],
    buffer: &mut [u32],
    work: &[u32],
    s: Start,
    x: usize,
) -> usize
    requires { Given at file.old buffer.old work.now × SectionFits (seen_by at file.old buffer.old) at.flag s x }
    ensures { (result ≡ length (section_all (seen_by at file.old buffer.old) at.flag s x work.now))
        × (file.new ≡ section_left (seen_by at file.old buffer.old) at.flag s x work.now) }
{
    let w = s.path;
    let d = s.new;
    let moved = start_block(at, file, buffer, work, s);
    start_section(at.desc, file, work, w.index, d.block, x);
    moved + 5
}

// What was planned is done.
pub fn do_xtend(deed: Extend, at: Held, file: &mut [u32], buffer: &mut [u32], work: &[u32]) -> Done
    requires { Given at file.old buffer.old work.now × ExtendFits (seen_by at file.old buffer.old) at.flag deed }
    ensures { FollowsAt result (λ v flag work. extend_done v flag work deed) at (file.old, file.new) (buffer.old, buffer.new) (work.now, work.now) }
{
    let p = at.desc;
    match deed {
        Extend::Stop(way, x, number) => {
            count_more(acts::stop(at, file, buffer, way, number), reads_of(x))
        }
        Extend::Room(way, x, number) => {
            count_more(store_last(at, file, buffer, work, way, number), reads_of(x))
        }
        Extend::New(way, path, new, number) => {
            let s = Start { way, path, new };
            let transfers = write_new(at, file, buffer, work, s);
            acts::land(p, file, buffer, new.block, number, transfers)
        }
        Extend::Both(way, path, block, x, number) => {
            let new = Taken {
                block,
                head: x.head,
                lowest: x.lowest,
            };
            let s = Start { way, path, new };
            let transfers = write_both(at, file, buffer, work, s, x.block);
            acts::land(p, file, buffer, block, number, transfers)
        }
        Extend::Before(way, _, d) => {
            count_more(do_nsert(d, at, file, buffer, work), lead_of(way))
        }
    }
}
