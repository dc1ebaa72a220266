// What XTEND will do, decided from current texts alone: every number on the way to the last block is checked, and nothing is stored.
// Key and path stay plain, and what they must be stays a clause: as ghost fields both would name v, and each would hold for one v alone.
// The flag stands beside v: it is no part of a Seen, whose texts have none.
ghost use Rattle.std.specs.Prelude.{◌≡◌, ◌≤◌, length};
ghost use Rattle.numbers.specs.Refused.{checked};
ghost use Rattle.words.specs.Words.{part};
ghost use Rattle.drum.specs.Sight.{texts};
ghost use Rattle.rules.specs.Fits.{PathFits};
ghost use Rattle.rules.specs.Xtend.{last_room, not_above_before, alone_deed, start_deed, section_deed, new_at, new_deed, extend_at, extend_deed};
ghost use Rattle.xtend.specs.Fits.{AtFits};

use super::before::look_deed;
use super::last::{count_at, is_above, last_of, last_way, text_at};
use drum::{Seen, kinds};
use numbers::{NO_ROOM, OUT_OF_SEQUENCE, Refusal};
use rules::{Extend, Path, Way};

// The last block takes the record: x is the index block that was read for it, or 0.
// 0 and no Option, here and in the plans below: the variants are the definitions', whose meaning may not change.
fn last_room(v: Seen, way: Way, x: usize) -> Result<Extend, Refusal>
    requires { AtFits (texts v) way }
    ensures { checked result ≡ last_room (texts v.entry) way x }
{
    let n = count_at(v, way);
    let head = words::word_at(v.file, 1);
    let number = free::stored(v.desc, n + 1, head, v.file[2])?;
    Ok(Extend::Room(way, x, number))
}

// Whether the key is not above the bound before the block that the path leads to.
fn not_above_before(v: Seen, key: &[u32], w: Path) -> bool
    requires { (v.desc.k ≤ length key.now) × PathFits (texts v) w }
    ensures { result ≡ not_above_before (texts v.entry) (part 0 v.entry.desc.k key.now) w }
{
    let k = v.desc.k;
    if w.entry == 0 {
        return w.section != 0
            && !words::key_below(v.file, 3 + (w.section - 1) * (k + 1), key, 0, k);
    }
    !words::key_below(v.text_of(w.index), 1 + (w.entry - 1) * (k + 1), key, 0, k)
}

// The last block holds only the end record: the index block is read for the bound before it.
fn alone_deed(v: Seen, flag: bool, key: &[u32], way: Way) -> Result<Extend, Refusal>
    requires { (v.desc.k ≤ length key.now) × AtFits (texts v) way }
    ensures { checked result ≡ alone_deed (texts v.entry) flag (part 0 v.entry.desc.k key.now) way }
{
    let w = last_of(v, way)?;
    if not_above_before(v, key, w) {
        return look_deed(v, flag, key, way, w);
    }
    last_room(v, way, w.index)
}

// The end record starts a new block: n is the number of records that the record's block keeps.
// Block 0 for none: see `Taken` in rules.
fn start_deed(v: Seen, flag: bool, way: Way, w: Path, n: usize) -> Result<Extend, Refusal>
    ensures { checked result ≡ start_deed (texts v.entry) flag way w n }
{
    let d = free::take_one(v, flag, w)?;
    if d.block == 0 {
        return Ok(Extend::Stop(way, 0, NO_ROOM));
    }
    let number = free::stored(v.desc, n, d.head, d.lowest)?;
    Ok(Extend::New(way, w, d, number))
}

// And its entry a new index block and section. One form with `start_deed` would be no plainer: other blocks are taken, and another plan made of them.
// Detail block 0 for none: see `Pair` in rules.
fn section_deed(v: Seen, flag: bool, way: Way, w: Path, n: usize) -> Result<Extend, Refusal>
    ensures { checked result ≡ section_deed (texts v.entry) flag way w n }
{
    let t = free::take_two(v, flag, w)?;
    if t.detail == 0 {
        return Ok(Extend::Stop(way, 0, NO_ROOM));
    }
    let x = t.index;
    let number = free::stored(v.desc, n, x.head, x.lowest)?;
    Ok(Extend::Both(way, w, t.detail, x, number))
}

// Which of the two it is: the index block takes one more entry, or not.
fn new_at(v: Seen, flag: bool, way: Way, w: Path, n: usize) -> Result<Extend, Refusal>
    requires { PathFits (texts v) w }
    ensures { checked result ≡ new_at (texts v.entry) flag way w n }
{
    if kinds::entries_in(v.desc, v.text_of(w.index)) < v.desc.fi() {
        return start_deed(v, flag, way, w, n);
    }
    section_deed(v, flag, way, w, n)
}

// The last block takes no more: its path, and then the new block.
fn new_deed(v: Seen, flag: bool, way: Way) -> Result<Extend, Refusal>
    requires { AtFits (texts v) way }
    ensures { checked result ≡ new_deed (texts v.entry) flag way }
{
    let w = last_of(v, way)?;
    new_at(v, flag, way, w, count_at(v, way))
}

// The record goes to the last block, which the way leads to.
fn extend_at(v: Seen, flag: bool, key: &[u32], way: Way) -> Result<Extend, Refusal>
    requires { (v.desc.k ≤ length key.now) × AtFits (texts v) way }
    ensures { checked result ≡ extend_at (texts v.entry) flag (part 0 v.entry.desc.k key.now) way }
{
    let n = count_at(v, way);
    if n == 1 {
        return alone_deed(v, flag, key, way);
    }
    if !is_above(v.desc, text_at(v, way), 2, key) {
        return Ok(Extend::Stop(way, 0, OUT_OF_SEQUENCE));
    }
    if n < v.desc.fd() {
        return last_room(v, way, 0);
    }
    new_deed(v, flag, way)
}

// What XTEND will do.
pub fn plan_xtend(v: Seen, flag: bool, key: &[u32]) -> Result<Extend, Refusal>
    requires { v.desc.k ≤ length key.now }
    ensures { checked result ≡ extend_deed (texts v.entry) flag (part 0 v.entry.desc.k key.now) }
{
    let way = last_way(v, flag)?;
    extend_at(v, flag, key, way)
}
