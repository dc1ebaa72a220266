// What NSERT does once it is planned.
// What a call holds, the file and the buffer stay three parameters (why: crate acts).
ghost use Rattle.std.specs.Prelude.{◌≡◌, true, false, ◌≤◌, length, IfOk};
ghost use Rattle.table.specs.Tables.{inserted};
ghost use Rattle.drum.specs.Params.{D, detail_shape};
ghost use Rattle.drum.specs.Blocks.{Fitting, block_at};
ghost use Rattle.acts.specs.Reach.{seen_by};
ghost use Rattle.rules.specs.declared.Way.TheVariants as way-is;
ghost use Rattle.rules.specs.Lookup.{reached};
ghost use Rattle.rules.specs.NsertDone.{half_of, insert_done};
ghost use Rattle.rules.specs.State.{record_in};
ghost use Rattle.rules.specs.Told.{FollowsAt};
ghost use Rattle.nsert.specs.Fits.{HalfFits, Lent, RoomFits, InsertFits};
ghost use Rattle.nsert.specs.Plans.{plan_done};

use super::splits::{Overflow, write_both, write_split};
use drum::Description;
use numbers::Refusal;
use rules::{Done, Held, Insert, Path, Taken, Way};

// Of the two blocks of a split, the half with the record put in at place i of n.
fn half_of(n: usize, i: usize, old: usize, new: usize) -> usize
    requires { n ≤ 262143 }
    ensures { result ≡ half_of n i old new }
{
    if i < split::low_count(n) { old } else { new }
}

// The buffer takes the half with the record, and the call ends there with its number.
fn land_half(
    p: Description,
    file: &[u32],
    buffer: &mut [u32],
    c: Overflow,
    number: u32,
    transfers: usize,
) -> Done
    requires { Fitting p file.now buffer.old × HalfFits p c }
    ensures { (result
        ≡ record {
          number = number;
          transfers = transfers;
          current = half_of (D p) c.place c.path.detail c.new.block;
          flag = false;
          keyed = true;
        })
        × (buffer.new ≡ block_at p file.now (half_of (D p) c.place c.path.detail c.new.block)) }
{
    let w = c.path;
    let d = c.new;
    let half = half_of(p.d(), c.place, w.detail, d.block);
    acts::land(p, file, buffer, half, number, transfers)
}

// The record goes into its block, which has room. Counts the transfers of the lookup.
fn put_in(at: Held, file: &mut [u32], buffer: &mut [u32], work: &[u32], w: Path, i: usize) -> usize
    requires { Lent at file.old buffer.old work.now
        × RoomFits (seen_by at file.old buffer.old) at.flag w i }
    ensures { (result ≡ length (reached (seen_by at file.old buffer.old) at.flag (way-is.By w)).moves)
        × (file.new ≡ (reached (seen_by at file.old buffer.old) at.flag (way-is.By w)).file)
        × (buffer.new
        ≡ inserted (detail_shape at.desc) i (record_in at.desc work.now)
        (reached (seen_by at file.old buffer.old) at.flag (way-is.By w)).buffer) }
{
    let p = at.desc;
    let here = acts::reach(at, file, buffer, Way::By(w));
    table::insert_row(p.detail_shape(), buffer, i, work, 0);
    here.transfers
}

// Does what was planned.
pub fn do_nsert(deed: Insert, at: Held, file: &mut [u32], buffer: &mut [u32], work: &[u32]) -> Done
    requires { Fitting at.desc file.old buffer.old
        × (length work.now ≡ at.desc.wpr)
        × InsertFits (seen_by at file.old buffer.old) at.flag deed }
    ensures { FollowsAt result (λ v flag work. insert_done v flag work deed) at (file.old, file.new) (buffer.old, buffer.new) (work.now, work.now) }
{
    let p = at.desc;
    match deed {
        Insert::Stop(way, number) => acts::stop(at, file, buffer, way, number),
        Insert::Room(path, place, number) => {
            let transfers = put_in(at, file, buffer, work, path, place);
            Done {
                number,
                transfers,
                current: path.detail,
                flag: true,
                keyed: true,
            }
        }
        Insert::Split(path, place, new, number) => {
            let c = Overflow { path, place, new };
            let moved = write_split(at, file, buffer, work, c);
            land_half(p, file, buffer, c, number, moved + 4)
        }
        Insert::Both(path, place, block, x, number) => {
            let new = Taken {
                block,
                head: x.head,
                lowest: x.lowest,
            };
            let c = Overflow { path, place, new };
            let moved = write_both(at, file, buffer, work, c, x.block);
            land_half(p, file, buffer, c, number, moved + 5)
        }
    }
}

// What a plan came to: its deed is done; what refused it is refused, and nothing changes.
pub fn do_plan(
    plan: Result<Insert, Refusal>,
    at: Held,
    file: &mut [u32],
    buffer: &mut [u32],
    work: &[u32],
) -> Done
    requires { Fitting at.desc file.old buffer.old
        × (length work.now ≡ at.desc.wpr)
        × IfOk plan (InsertFits (seen_by at file.old buffer.old) at.flag) }
    ensures { FollowsAt result (λ v flag work. plan_done v flag work plan) at (file.old, file.new) (buffer.old, buffer.new) (work.now, work.now) }
{
    match plan {
        Ok(deed) => do_nsert(deed, at, file, buffer, work),
        Err(refusal) => at.refused(refusal),
    }
}
