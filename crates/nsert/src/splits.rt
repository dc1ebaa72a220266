// All that a split stores in the file.
// What a call holds, the file and the buffer stay three parameters (why: crate acts).
ghost use Rattle.std.specs.Prelude.{◌≡◌, ◌+◌, ◌≤◌, length};
ghost use Rattle.words.specs.Words.{part};
ghost use Rattle.drum.specs.Blocks.{Fitting};
ghost use Rattle.acts.specs.Reach.{seen_by};
ghost use Rattle.rules.specs.declared.Way.TheVariants as way-is;
ghost use Rattle.rules.specs.Lookup.{reached};
ghost use Rattle.rules.specs.NsertDone.{detail_entry, split_file, both_split_file};
ghost use Rattle.rules.specs.State.{record_in};
ghost use Rattle.nsert.specs.Fits.{CutFits, SplitFits, BothFits, Lent, AboveFits, second_of};
ghost use Rattle.nsert.specs.Steps.{cut_file, above_file};

use drum::Description;
use rules::{Held, Path, Taken, Way};
use split::Cut;

// A full block at the end of a path, the place in it of the record that is put in, and its new block, with words 1 and 2 of the master then.
#[derive(Clone, Copy)]
pub struct Overflow {
    pub path: Path,
    pub place: usize,
    pub new: Taken,
}

// Splits the detail block, and makes the entry of the old one. Counts the transfers of the lookup.
fn cut(
    at: Held,
    file: &mut [u32],
    buffer: &mut [u32],
    work: &[u32],
    c: Overflow,
    entry: &mut [u32],
) -> usize
    requires { Lent at file.old buffer.old work.now
        × (at.desc.k + 1 ≤ length entry.old)
        × CutFits (seen_by at file.old buffer.old) at.flag c }
    ensures { (result ≡ length (reached (seen_by at file.old buffer.old) at.flag (way-is.By c.path)).moves)
        × (file.new ≡ cut_file (seen_by at file.old buffer.old) at.flag c (record_in at.desc work.now))
        × (part 0 (at.desc.k + 1) entry.new
        ≡ detail_entry (seen_by at file.old buffer.old) c.path c.place (record_in at.desc work.now)) }
{
    let p = at.desc;
    let w = c.path;
    let d = c.new;
    let moved = free::prepare(at, file, buffer, Way::By(w), w, d);
    let halves = Cut {
        desc: p,
        shape: p.detail_shape(),
        rows: p.d(),
        place: c.place,
        old: w.detail,
        new: d.block,
    };
    halves.divide(file, buffer, entry, work);
    moved
}

// All that a split stores in the file, whose index block has room.
pub fn write_split(
    at: Held,
    file: &mut [u32],
    buffer: &mut [u32],
    work: &[u32],
    c: Overflow,
) -> usize
    requires { Lent at file.old buffer.old work.now
        × SplitFits (seen_by at file.old buffer.old) at.flag c }
    ensures { (result ≡ length (reached (seen_by at file.old buffer.old) at.flag (way-is.By c.path)).moves)
        × (file.new
        ≡ split_file (seen_by at file.old buffer.old) at.flag c.path c.place
        (record_in at.desc work.now) c.new) }
{
    let mut entry = [0u32; 64];
    let w = c.path;
    let d = c.new;
    let moved = cut(at, file, buffer, work, c, &mut entry);
    split::enter_in(at.desc, file, w.index, w.entry, &entry, d.block);
    moved
}

// Splits the full index block, x its new block, as its entry becomes two; and enters the master likewise.
fn write_above(
    p: Description,
    file: &mut [u32],
    buffer: &mut [u32],
    c: Overflow,
    entry: &[u32],
    x: usize,
)
    requires { Fitting p file.old buffer.old × AboveFits p file.old c x × (p.k + 1 ≤ length entry.now) }
    ensures { file.new ≡ above_file p c.path (part 0 (p.k + 1) entry.now) c.new.block x file.old }
{
    let mut above = [0u32; 64];
    let w = c.path;
    let d = c.new;
    let halves = Cut {
        desc: p,
        shape: p.index_shape(),
        rows: p.i(),
        place: w.entry,
        old: w.index,
        new: x,
    };
    halves.divide_in(file, buffer, &mut above, entry, d.block);
    split::enter(p.master_shape(), file, w.section, &above, x);
}

// All that a split stores in the file, whose index block is full: x its new block.
pub fn write_both(
    at: Held,
    file: &mut [u32],
    buffer: &mut [u32],
    work: &[u32],
    c: Overflow,
    x: usize,
) -> usize
    requires { Lent at file.old buffer.old work.now
        × BothFits (seen_by at file.old buffer.old) at.flag c x }
    ensures { (result ≡ length (reached (seen_by at file.old buffer.old) at.flag (way-is.By c.path)).moves)
        × (file.new
        ≡ both_split_file (seen_by at file.old buffer.old) at.flag c.path c.place
        (record_in at.desc work.now) c.new.block (second_of c x)) }
{
    let mut entry = [0u32; 64];
    let moved = cut(at, file, buffer, work, c, &mut entry);
    write_above(at.desc, file, buffer, c, &entry, x);
    moved
}
