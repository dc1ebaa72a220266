// What DLETE will do, decided from current texts alone.
// Key and path stay plain, and what they must be stays a clause: as ghost fields both would name v, and each would hold for one v alone.
// The flag stands beside v: it is no part of a Seen, whose texts have none.
ghost use Rattle.std.specs.Prelude.{◌≡◌, [], ◌≤◌, length};
ghost use Rattle.words.specs.Words.{part};
ghost use Rattle.numbers.specs.Refused.{checked};
ghost use Rattle.drum.specs.Sight.{texts};
ghost use Rattle.rules.specs.Fits.{PathFits};
ghost use Rattle.rules.specs.Dlete.{empty_deed, delete_after, delete_deed};
ghost use Rattle.rules.specs.declared.Way.TheVariants as way-is;
ghost use Rattle.rules.specs.declared.Look.TheVariants as look_is;

use drum::{Seen, kinds};
use numbers::{Refusal, require, up_to};
use rules::{Delete, Look, Path, Way, Which};

// The block is left empty: the chain's head will be its link, and its index block may be emptied too.
fn empty_deed(v: Seen, way: Way, w: Path) -> Result<Delete, Refusal>
    requires { PathFits (texts v) w }
    ensures { checked result ≡ empty_deed (texts v.entry) way w }
{
    let head = up_to(v.desc.n, words::word_at(v.file, 1))?;
    if kinds::entries_in(v.desc, v.text_of(w.index)) == 1 {
        return Ok(Delete::Both(way, w, head));
    }
    Ok(Delete::Empty(way, w, head))
}

// The record is at place i of the buffered block. If that is left empty, its path is the one for the key, and must lead to it.
fn delete_here(v: Seen, key: &[u32], i: usize) -> Result<Delete, Refusal>
    requires { v.desc.k ≤ length key.now }
    ensures { checked result ≡ delete_after (texts v.entry) (part 0 v.entry.desc.k key.now) (look_is.Found way-is.Here i) }
{
    if kinds::records_in(v.desc, v.buffer) != 1 {
        return Ok(Delete::Remove(Way::Here, i));
    }
    let w = lookup::path_by(v, Which::Covering, Which::Covering, key)?;
    require(w.detail == v.current, Refusal::BadFile)?;
    empty_deed(v, Way::Here, w)
}

// The record is at place i of the block at the end of the path w.
fn delete_by(v: Seen, w: Path, i: usize) -> Result<Delete, Refusal>
    requires { PathFits (texts v) w }
    ensures { checked result ≡ delete_after (texts v.entry) [] (look_is.Found (way-is.By w) i) }
{
    if kinds::records_in(v.desc, v.text_of(w.detail)) != 1 {
        return Ok(Delete::Remove(Way::By(w), i));
    }
    empty_deed(v, Way::By(w), w)
}

// What DLETE will do.
pub fn plan_dlete(v: Seen, flag: bool, key: &[u32]) -> Result<Delete, Refusal>
    requires { v.desc.k ≤ length key.now }
    ensures { checked result ≡ delete_deed (texts v.entry) flag (part 0 v.entry.desc.k key.now) }
{
    match lookup::look(v, flag, key)? {
        Look::Missing(w) => Ok(Delete::Stop(w)),
        Look::Found(Way::Here, i) => delete_here(v, key, i),
        Look::Found(Way::By(w), i) => delete_by(v, w, i),
    }
}
