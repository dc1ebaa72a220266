// What NSERT will do, decided from current texts alone: where the record goes, what it takes (room there, one new block, or two and a
// section), and the number that goes with it.
// Key and path stay plain, and what they must be stays a clause: as ghost fields both would name v, and each would hold for one v alone.
// The flag stands beside v: it is no part of a Seen, whose texts have none.
ghost use Rattle.std.specs.Prelude.{◌≡◌, ◌≤◌, length};
ghost use Rattle.numbers.specs.Refused.{checked};
ghost use Rattle.words.specs.Words.{part};
ghost use Rattle.table.specs.Tables.{row_above};
ghost use Rattle.drum.specs.Params.{detail_shape};
ghost use Rattle.drum.specs.Blocks.{text_of};
ghost use Rattle.drum.specs.Sight.{texts};
ghost use Rattle.rules.specs.Fits.{PathFits};
ghost use Rattle.rules.specs.Nsert.{half_count, room_deed, split_deed, both_deed, insert_at, insert_deed};

use drum::{Seen, kinds};
use numbers::{NO_ROOM, NOT_FOUND, Refusal};
use rules::{Insert, Look, Path, Way};
use table::Want;

// How many records the half has in which the one put in at place i of n falls.
fn half_count(n: usize, i: usize) -> usize
    requires { n ≤ 262143 }
    ensures { result ≡ half_count n i }
{
    let low = split::low_count(n);
    if i < low { low } else { n + 1 - low }
}

// The block has room: the number that goes with the record's place.
fn room_deed(v: Seen, w: Path, i: usize) -> Result<Insert, Refusal>
    requires { PathFits (texts v) w }
    ensures { checked result ≡ room_deed (texts v.entry) w i }
{
    let n = kinds::records_in(v.desc, v.text_of(w.detail));
    let head = words::word_at(v.file, 1);
    let number = free::stored(v.desc, n + 1, head, v.file[2])?;
    Ok(Insert::Room(w, i, number))
}

// The block is full: one new block is needed.
// Block 0 for none: see `Taken` in rules.
fn split_deed(v: Seen, flag: bool, w: Path, i: usize) -> Result<Insert, Refusal>
    ensures { checked result ≡ split_deed (texts v.entry) flag w i }
{
    let d = free::take_one(v, flag, w)?;
    if d.block == 0 {
        return Ok(Insert::Stop(Way::By(w), NO_ROOM));
    }
    let n = half_count(v.desc.d(), i);
    let number = free::stored(v.desc, n, d.head, d.lowest)?;
    Ok(Insert::Split(w, i, d, number))
}

// The index block is full too: two new blocks are needed, and a section.
// Detail block 0 for none: see `Pair` in rules. One form with `split_deed` would be no plainer: other blocks are taken, and another plan made of them.
fn both_deed(v: Seen, flag: bool, w: Path, i: usize) -> Result<Insert, Refusal>
    ensures { checked result ≡ both_deed (texts v.entry) flag w i }
{
    let t = free::take_two(v, flag, w)?;
    if t.detail == 0 {
        return Ok(Insert::Stop(Way::By(w), NO_ROOM));
    }
    let x = t.index;
    let n = half_count(v.desc.d(), i);
    let number = free::stored(v.desc, n, x.head, x.lowest)?;
    Ok(Insert::Both(w, i, t.detail, x, number))
}

// The record goes to place i of the block at the end of the way.
pub fn insert_at(v: Seen, flag: bool, w: Path, i: usize) -> Result<Insert, Refusal>
    requires { PathFits (texts v) w }
    ensures { checked result ≡ insert_at (texts v.entry) flag w i }
{
    if kinds::records_in(v.desc, v.text_of(w.detail)) < v.desc.d() {
        return room_deed(v, w, i);
    }
    if kinds::entries_in(v.desc, v.text_of(w.index)) < v.desc.i() {
        return split_deed(v, flag, w, i);
    }
    both_deed(v, flag, w, i)
}

// Where a record with this key goes in that block: before the first record above it.
pub fn place_of(v: Seen, key: &[u32], w: Path) -> usize
    requires { (v.desc.k ≤ length key.now) × PathFits (texts v) w }
    ensures { result
        ≡ row_above (detail_shape v.entry.desc) (part 0 v.entry.desc.k key.now) (text_of (texts v.entry) w.detail) }
{
    let t = v.text_of(w.detail);
    let n = kinds::records_in(v.desc, t);
    table::find(Want::Over, v.desc.detail_shape(), t, n, key, 0)
}

// What NSERT will do.
pub fn plan_nsert(v: Seen, flag: bool, key: &[u32]) -> Result<Insert, Refusal>
    requires { v.desc.k ≤ length key.now }
    ensures { checked result ≡ insert_deed (texts v.entry) flag (part 0 v.entry.desc.k key.now) }
{
    match lookup::look(v, flag, key)? {
        Look::Found(way, _) => Ok(Insert::Stop(way, NOT_FOUND)),
        Look::Missing(w) => insert_at(v, flag, w, place_of(v, key, w)),
    }
}
