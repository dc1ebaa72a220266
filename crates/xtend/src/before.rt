// The last block holds only the end record, and the key is not above the bound before it: the key is looked up, and where all ordinary records
// are below it NSERT is planned there.
// (Why key, path and flag stand beside v: plan.rt.)
ghost use Rattle.std.specs.Prelude.{◌≡◌, ◌≤◌, length};
ghost use Rattle.numbers.specs.Refused.{checked};
ghost use Rattle.words.specs.Words.{part};
ghost use Rattle.drum.specs.Sight.{texts};
ghost use Rattle.rules.specs.Fits.{PathFits};
ghost use Rattle.rules.specs.Xtend.{just_before, not_behind, apart, new_apart, insert_before, look_deed};

use super::last::is_above;
use drum::{Seen, kinds};
use nsert::plan::{insert_at, place_of};
use numbers::{OUT_OF_SEQUENCE, Refusal, require};
use rules::{Extend, Insert, Path, Way, Which};
use table::Want;

// Whether the entry of the path q is the one just before that of w: in its index block, or the last of the section before.
fn just_before(v: Seen, q: Path, w: Path) -> bool
    requires { PathFits (texts v) q }
    ensures { result ≡ just_before (texts v.entry) q w }
{
    if w.entry == 0 {
        let n = kinds::entries_in(v.desc, v.text_of(q.index));
        return q.section + 1 == w.section && q.entry + 1 == n;
    }
    q.section == w.section && q.entry + 1 == w.entry
}

// Whether the lookup, which came to the path q, shows an ordinary record that is not below the key; w is the path to the last block.
fn not_behind(v: Seen, key: &[u32], w: Path, q: Path) -> bool
    requires { (v.desc.k ≤ length key.now) × PathFits (texts v) q }
    ensures { result ≡ not_behind (texts v.entry) (part 0 v.entry.desc.k key.now) w q }
{
    let p = v.desc;
    let t = v.text_of(q.detail);
    let n = kinds::records_in(p, t);
    let i = table::find(Want::Equal, p.detail_shape(), t, n, key, 0);
    i < n || !just_before(v, q, w) || !is_above(p, t, 1, key)
}

// Whether block b is none of those moved on the way to the last block, whose path is w.
#[tactic(auto, unfolding(rules::specs::Xtend::apart))]
fn is_apart(way: Way, w: Path, b: usize) -> bool
    ensures { result ≡ apart way w b }
{
    b != w.index
        && match way {
            Way::Here => true,
            Way::By(_) => b != w.detail,
        }
}

// The same of each new block that NSERT takes.
fn new_apart(way: Way, w: Path, d: Insert) -> bool
    ensures { result ≡ new_apart way w d }
{
    match d {
        Insert::Stop(..) | Insert::Room(..) => true,
        Insert::Split(_, _, x, _) => is_apart(way, w, x.block),
        Insert::Both(_, _, b, x, _) => is_apart(way, w, b) && is_apart(way, w, x.block),
    }
}

// NSERT's plan at the end of the path q as XTEND's, if its new blocks are such.
fn insert_before(
    v: Seen,
    flag: bool,
    key: &[u32],
    way: Way,
    w: Path,
    q: Path,
) -> Result<Extend, Refusal>
    requires { (v.desc.k ≤ length key.now) × PathFits (texts v) q }
    ensures { checked result ≡ insert_before (texts v.entry) flag (part 0 v.entry.desc.k key.now) way w q }
{
    let d = insert_at(v, flag, q, place_of(v, key, q))?;
    require(new_apart(way, w, d), Refusal::BadFile)?;
    Ok(Extend::Before(way, w, d))
}

// What XTEND will do after the lookup: w is the path to the last block, which the way leads to.
pub fn look_deed(v: Seen, flag: bool, key: &[u32], way: Way, w: Path) -> Result<Extend, Refusal>
    requires { v.desc.k ≤ length key.now }
    ensures { checked result ≡ look_deed (texts v.entry) flag (part 0 v.entry.desc.k key.now) way w }
{
    let q = lookup::path_by(v, Which::Covering, Which::Covering, key)?;
    if not_behind(v, key, w, q) {
        let stop = Insert::Stop(Way::By(q), OUT_OF_SEQUENCE);
        return Ok(Extend::Before(way, w, stop));
    }
    insert_before(v, flag, key, way, w, q)
}
