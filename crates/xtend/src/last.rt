// The last block, which holds the end record: the way to it, its path, and its current text.
ghost use Rattle.std.specs.Prelude.{◌≡◌, ◌-◌, ◌≤◌, length};
ghost use Rattle.numbers.specs.Refused.{checked};
ghost use Rattle.words.specs.Words.{part};
ghost use Rattle.words.specs.Keys.{key_lt};
ghost use Rattle.table.specs.Tables.{count, key_at};
ghost use Rattle.drum.specs.Params.{detail_shape};
ghost use Rattle.drum.specs.Sight.{texts};
ghost use Rattle.rules.specs.Lookup.{text_at};
ghost use Rattle.rules.specs.Paths.{last_path};
ghost use Rattle.rules.specs.Xtend.{ends_in_ones, last_outside, last_way, last_of};
ghost use Rattle.xtend.specs.Fits.{AtFits, RecordsIn};

use drum::{Description, Seen, kinds};
use numbers::{Refusal, require};
use rules::{Path, Way, Which};

// Whether the last record of a detail block's text has the key ONES.
fn ends_in_ones(p: Description, t: &[u32]) -> bool
    requires { RecordsIn p t.now 1 }
    ensures { result ≡ ends_in_ones p t.now }
{
    let n = kinds::records_in(p, t);
    words::all_are(t, 1 + (n - 1) * p.wpr, p.k, 262143)
}

// Whether the key is above that of a detail block's record, counted from the last, which is 1: the record before the end record is 2.
pub fn is_above(p: Description, t: &[u32], back: usize, key: &[u32]) -> bool
    requires { RecordsIn p t.now back × (1 ≤ back) × (p.k ≤ length key.now) }
    ensures { result ≡ key_lt (key_at (detail_shape p) t.now (count (detail_shape p) t.now - back)) (part 0 p.k key.now) }
{
    let n = kinds::records_in(p, t);
    words::key_below(t, 1 + (n - back) * p.wpr, key, 0, p.k)
}

// The path by the last entries. It asks no key: the buffer's words stand for one.
fn last_path(v: Seen) -> Result<Path, Refusal>
    ensures { checked result ≡ last_path (texts v.entry) }
{
    lookup::path_by(v, Which::Last, Which::Last, v.buffer)
}

// The way to the last block by way of the master.
fn last_outside(v: Seen, flag: bool) -> Result<Way, Refusal>
    ensures { checked result ≡ last_outside (texts v.entry) flag }
{
    let w = last_path(v)?;
    require(ends_in_ones(v.desc, v.text_of(w.detail)), Refusal::BadFile)?;
    require(lookup::can_flush(v, flag), Refusal::BadFile)?;
    Ok(Way::By(w))
}

// The way to the last block: it may be buffered.
pub fn last_way(v: Seen, flag: bool) -> Result<Way, Refusal>
    ensures { checked result ≡ last_way (texts v.entry) flag }
{
    if lookup::on_buffer(v)? && ends_in_ones(v.desc, v.buffer) {
        return Ok(Way::Here);
    }
    last_outside(v, flag)
}

// The path to the last block, which this way led to: to a buffered block, if the last entries name it.
pub fn last_of(v: Seen, way: Way) -> Result<Path, Refusal>
    ensures { checked result ≡ last_of (texts v.entry) way }
{
    match way {
        Way::By(w) => Ok(w),
        Way::Here => {
            let w = last_path(v)?;
            require(w.detail == v.current, Refusal::BadFile)?;
            Ok(w)
        }
    }
}

// The current text of the block at the end of the way.
pub fn text_at<'a>(v: Seen<'a>, way: Way) -> &'a [u32]
    requires { AtFits (texts v) way }
    ensures { result.now ≡ text_at (texts v.entry) way }
{
    match way {
        Way::Here => v.buffer,
        Way::By(w) => v.text_of(w.detail),
    }
}

// How many records it holds.
pub fn count_at(v: Seen, way: Way) -> usize
    requires { AtFits (texts v) way }
    ensures { result ≡ count (detail_shape v.entry.desc) (text_at (texts v.entry) way) }
{
    kinds::records_in(v.desc, text_at(v, way))
}
