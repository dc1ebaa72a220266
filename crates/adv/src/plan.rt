// Where the least key above position is, decided from current texts alone.
// Key and path stay plain, and what they must be stays a clause: as ghost fields both would name v, and each would hold for one v alone.
// The flag stands beside v: it is no part of a Seen, whose texts have none.
ghost use Rattle.std.specs.Prelude.{◌≡◌, cond, ◌&&◌, ◌-◌, ◌≤◌, length};
ghost use Rattle.words.specs.Words.{part};
ghost use Rattle.words.specs.Keys.{key_lt, key_le};
ghost use Rattle.numbers.specs.Refused.{checked};
ghost use Rattle.table.specs.Tables.{count, key_at};
ghost use Rattle.drum.specs.Params.{D, detail_shape};
ghost use Rattle.drum.specs.Sight.{texts};
ghost use Rattle.rules.specs.declared.Which.TheVariants.{First, Covering};
ghost use Rattle.rules.specs.Fits.{BufferFits, PathFits};
ghost use Rattle.rules.specs.Adv.{next_row, next_in_buffer, next_path, adv_beyond, adv_at, adv_outside, adv_step};

use drum::{Seen, kinds};
use numbers::{Refusal, require};
use rules::{Path, Step, Way, Which};
use table::Want;

// The first record of a detail block's text above position, or its first record while position is none; else the count.
fn next_row(v: Seen, placed: bool, position: &[u32], t: &[u32]) -> usize
    requires { (length t.now ≡ v.desc.wpb) × (count (detail_shape v.desc) t.now ≤ D v.desc) × (v.desc.k ≤ length position.now) }
    ensures { result ≡ next_row (texts v.entry) placed (part 0 v.entry.desc.k position.now) t.now }
{
    if !placed {
        return 0;
    }
    let n = kinds::records_in(v.desc, t);
    table::find(Want::Over, v.desc.detail_shape(), t, n, position, 0)
}

// Whether the buffer's first key is not above position, and its last key is.
fn spans(v: Seen, position: &[u32]) -> bool
    requires { BufferFits (texts v) × (v.desc.k ≤ length position.now) }
    ensures { result
        ≡ (key_le (key_at (detail_shape v.entry.desc) v.entry.buffer.now 0) (part 0 v.entry.desc.k position.now) && key_lt
        (part 0 v.entry.desc.k position.now)
        (key_at (detail_shape v.entry.desc) v.entry.buffer.now (count (detail_shape v.entry.desc) v.entry.buffer.now - 1))) }
{
    let p = v.desc;
    let last = kinds::records_in(p, v.buffer) - 1;
    !words::key_below(position, 0, v.buffer, 1, p.k)
        && words::key_below(position, 0, v.buffer, 1 + last * p.wpr, p.k)
}

// Whether the next record is in the buffer.
fn next_in_buffer(v: Seen, position: &[u32]) -> Result<bool, Refusal>
    requires { v.desc.k ≤ length position.now }
    ensures { checked result ≡ next_in_buffer (texts v.entry) (part 0 v.entry.desc.k position.now) }
{
    Ok(lookup::on_buffer(v)? && spans(v, position))
}

// The way to the next detail block. It goes by places, so position is handed on only as some key.
fn next_path(v: Seen, position: &[u32], w: Path) -> Result<Path, Refusal>
    requires { (v.desc.k ≤ length position.now) × PathFits (texts v) w }
    ensures { checked result ≡ next_path (texts v.entry) w }
{
    let next = w.entry + 1;
    if next < kinds::entries_in(v.desc, v.text_of(w.index)) {
        return lookup::path_by(v, Which::Place(w.section), Which::Place(next), position);
    }
    lookup::path_by(v, Which::Place(w.section + 1), Which::First, position)
}

// The record in the next detail block: nothing greater is in the block at the end of the way.
fn adv_beyond(v: Seen, placed: bool, position: &[u32], w: Path) -> Result<Step, Refusal>
    requires { (v.desc.k ≤ length position.now) × PathFits (texts v) w }
    ensures { checked result ≡ adv_beyond (texts v.entry) placed (part 0 v.entry.desc.k position.now) w }
{
    let x = next_path(v, position, w)?;
    let t = v.text_of(x.detail);
    let i = next_row(v, placed, position, t);
    require(i < kinds::records_in(v.desc, t), Refusal::BadFile)?;
    Ok(Step::Beyond(w, x, i))
}

// The record in the block at the end of the way, or else in the next.
fn adv_at(v: Seen, flag: bool, placed: bool, position: &[u32], w: Path) -> Result<Step, Refusal>
    requires { (v.desc.k ≤ length position.now) × PathFits (texts v) w }
    ensures { checked result ≡ adv_at (texts v.entry) flag placed (part 0 v.entry.desc.k position.now) w }
{
    require(lookup::can_flush(v, flag), Refusal::BadFile)?;
    let t = v.text_of(w.detail);
    let i = next_row(v, placed, position, t);
    if i < kinds::records_in(v.desc, t) {
        return Ok(Step::At(Way::By(w), i));
    }
    adv_beyond(v, placed, position, w)
}

// Which block comes first: the one that covers position, or the first one while position is none.
fn first_wanted(placed: bool) -> Which
    ensures { result ≡ cond placed Covering First }
{
    if placed {
        Which::Covering
    } else {
        Which::First
    }
}

// The record, by way of the master.
fn adv_outside(v: Seen, flag: bool, placed: bool, position: &[u32]) -> Result<Step, Refusal>
    requires { v.desc.k ≤ length position.now }
    ensures { checked result ≡ adv_outside (texts v.entry) flag placed (part 0 v.entry.desc.k position.now) }
{
    let which = first_wanted(placed);
    let w = lookup::path_by(v, which, which, position)?;
    adv_at(v, flag, placed, position, w)
}

// The record that ADV comes to. `placed` and `position` stay two: the session keeps them so for C, and the definition takes them so.
pub fn plan_adv(v: Seen, flag: bool, placed: bool, position: &[u32]) -> Result<Step, Refusal>
    requires { v.desc.k ≤ length position.now }
    ensures { checked result ≡ adv_step (texts v.entry) flag placed (part 0 v.entry.desc.k position.now) }
{
    if placed && next_in_buffer(v, position)? {
        return Ok(Step::At(Way::Here, next_row(v, true, position, v.buffer)));
    }
    adv_outside(v, flag, placed, position)
}
