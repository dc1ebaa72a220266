// What a call looks at before it stores anything: ways to blocks, and where a key is. Every number on the way is checked, in current
// texts; the places come back beside the block numbers.
// Key and path stay plain, and what they must be stays a clause: as ghost fields both would name v, and each would hold for one v alone.
// The flag stands beside v: it is no part of a Seen, whose texts have none.
#![tactic(auto)]

ghost use Rattle.std.specs.Prelude.{◌≡◌, true, ◌+◌, ◌≤◌, ◌<◌, length};
ghost use Rattle.words.specs.Words.{part};
ghost use Rattle.table.specs.Tables.{place, block_in};
ghost use Rattle.numbers.specs.Refused.{checked};
ghost use Rattle.drum.specs.Blocks.{Block};
ghost use Rattle.drum.specs.Sight.{texts};
ghost use Rattle.rules.specs.Paths.{chosen, entry_of, path_at, path_under, path_by};
ghost use Rattle.rules.specs.Lookup.{on_buffer, flush_ok, look_at, look_outside, look as looked};
ghost use Rattle.lookup.specs.Tables.{Entries, CountedRows};
ghost use Rattle.rules.specs.Fits.{PathFits};

use drum::{Description, Seen, kinds};
use numbers::{Refusal, require, within};
use rules::{Entry, Look, Path, Way, Which};
use table::{Shape, Want};

// The place that is wanted in a table of n rows.
fn place_of(which: Which, h: Shape, t: &[u32], n: usize, key: &[u32]) -> usize
    requires { CountedRows h t.now n key.now }
    ensures { result ≡ chosen which h (part 0 h.width key.now) t.now }
{
    match which {
        Which::First => 0,
        Which::Last => n - 1,
        Which::Place(i) => i,
        Which::Covering => table::find(Want::NotBelow, h, t, n, key, 0),
    }
}

// The block that row i, an entry, names.
fn block_in(h: Shape, t: &[u32], i: usize) -> usize
    requires { place h i + h.width < length t.now }
    ensures { result ≡ block_in h t.now i }
{
    words::word_at(t, h.base + i * h.stride + h.width)
}

// The entry that is wanted, of the master or of an index block.
pub fn entry_of(
    p: Description,
    h: Shape,
    most: usize,
    which: Which,
    t: &[u32],
    key: &[u32],
) -> Result<Entry, Refusal>
    requires { Entries p h most t.now key.now }
    ensures { checked result ≡ entry_of p h most which (part 0 p.k key.now) t.now }
{
    let n = within(1, most, table::count_of(h, t))?;
    let place = place_of(which, h, t, n, key);
    require(place < n, Refusal::BadFile)?;
    let block = within(1, p.n, block_in(h, t, place))?;
    Ok(Entry { place, block })
}

// The way by master entry m and index entry e.
fn path_at(v: Seen, m: Entry, e: Entry) -> Result<Path, Refusal>
    requires { Block v.desc e.block }
    ensures { checked result ≡ path_at (texts v.entry) m e }
{
    require(m.block != e.block, Refusal::BadFile)?;
    let t = v.text_of(e.block);
    within(1, v.desc.d(), kinds::records_in(v.desc, t))?;
    Ok(Path {
        section: m.place,
        index: m.block,
        entry: e.place,
        detail: e.block,
    })
}

// The way by master entry m and the entry of its index block that is wanted.
fn path_under(v: Seen, which: Which, key: &[u32], m: Entry) -> Result<Path, Refusal>
    requires { (v.desc.k ≤ length key.now) × Block v.desc m.block }
    ensures { checked result ≡ path_under (texts v.entry) which (part 0 v.entry.desc.k key.now) m }
{
    let p = v.desc;
    let t = v.text_of(m.block);
    let e = entry_of(p, p.index_shape(), p.i(), which, t, key)?;
    path_at(v, m, e)
}

// The way by the master's entry that is wanted, and its index block's.
pub fn path_by(v: Seen, top: Which, which: Which, key: &[u32]) -> Result<Path, Refusal>
    requires { v.desc.k ≤ length key.now }
    ensures { checked result ≡ path_by (texts v.entry) top which (part 0 v.entry.desc.k key.now) }
{
    let p = v.desc;
    let m = entry_of(p, p.master_shape(), p.control, top, v.file, key)?;
    path_under(v, which, key, m)
}

// Whether a block is buffered, so that a test of its keys can be made.
pub fn on_buffer(v: Seen) -> Result<bool, Refusal>
    ensures { checked result ≡ on_buffer (texts v.entry) true }
{
    if v.current == 0 {
        return Ok(false);
    }
    within(1, v.desc.n, v.current)?;
    within(1, v.desc.d(), kinds::records_in(v.desc, v.buffer))?;
    Ok(true)
}

// Whether the buffer, if it is flagged, has a block to be written to.
pub fn can_flush(v: Seen, flag: bool) -> bool
    ensures { result ≡ flush_ok (texts v.entry) flag }
{
    !flag || 1 <= v.current && v.current <= v.desc.n
}

// Where the key is in the block at the end of the way.
fn look_at(v: Seen, key: &[u32], w: Path) -> Look
    requires { (v.desc.k ≤ length key.now) × PathFits (texts v) w }
    ensures { result ≡ look_at (texts v.entry) (part 0 v.entry.desc.k key.now) w }
{
    let p = v.desc;
    let t = v.text_of(w.detail);
    let n = kinds::records_in(p, t);
    let i = table::find(Want::Equal, p.detail_shape(), t, n, key, 0);
    if i < n {
        return Look::Found(Way::By(w), i);
    }
    Look::Missing(w)
}

// Where the key is, by way of the master.
fn look_outside(v: Seen, flag: bool, key: &[u32]) -> Result<Look, Refusal>
    requires { v.desc.k ≤ length key.now }
    ensures { checked result ≡ look_outside (texts v.entry) flag (part 0 v.entry.desc.k key.now) }
{
    let w = path_by(v, Which::Covering, Which::Covering, key)?;
    require(can_flush(v, flag), Refusal::BadFile)?;
    Ok(look_at(v, key, w))
}

// Where the key is.
pub fn look(v: Seen, flag: bool, key: &[u32]) -> Result<Look, Refusal>
    requires { v.desc.k ≤ length key.now }
    ensures { checked result ≡ looked (texts v.entry) flag (part 0 v.entry.desc.k key.now) }
{
    if !on_buffer(v)? {
        return look_outside(v, flag, key);
    }
    let p = v.desc;
    let n = kinds::records_in(p, v.buffer);
    let i = table::find(Want::Equal, p.detail_shape(), v.buffer, n, key, 0);
    if i < n {
        return Ok(Look::Found(Way::Here, i));
    }
    look_outside(v, flag, key)
}
