// Where a record goes, or where the next one lies: decided, with every refusal in its order, before a word moves.
ghost use Rattle.std.specs.Prelude.{◌≡◌, ◌+◌, ◌<◌, ◌^◌, ◌&&◌, leb, length};
ghost use Rattle.numbers.specs.Refused.{checked};
ghost use Rattle.sequential.specs.Rows.{area, work_of, good_layout, sized, size, right, room, word_of, next, put_place, stays_at, get_place};
ghost use Rattle.sequential.specs.Calls.{put_spot, get_spot, row_from, fixed_right};
ghost use Rattle.sequential.specs.Lent.{Fine, InBlock, InArea, Inside};

use super::{Kind, Layout, Place, Row};
use numbers::{Refusal, require};

// Whether the layout keeps its ranges. The words of a data area are reckoned where they are asked: a method of two fields less one another is no plainer.
fn is_good(l: Layout) -> bool
    ensures { result ≡ good_layout l }
{
    l.wpb % 2 == 0 && 6 <= l.wpb && l.wpb <= 4096 && l.leaders <= 63 && l.leaders < l.wpb
}

// The words of a workspace: those of a fixed record, or as many as a variable one may have.
fn work_words(l: Layout) -> usize
    requires { Fine l }
    ensures { result ≡ work_of l.kind (area l) }
{
    match l.kind {
        Kind::Fixed(n) => n,
        Kind::Variable => l.wpb - l.leaders,
    }
}

// Whether layout, file and workspace have the lengths that they must have.
fn is_sized(l: Layout, file: usize, work: usize) -> bool
    ensures { result ≡ sized l file work }
{
    is_good(l) && file % l.wpb == 0 && work == work_words(l)
}

// The word of the file at a place in the data area of one of its blocks.
pub fn word_of(l: Layout, q: Place, file: &[u32]) -> usize
    requires { Inside l q (length file.now) }
    ensures { result ≡ word_of l q }
{
    q.block * l.wpb + l.leaders + q.at
}

// The words of the record that begins at word `at` of t: none where a variable one would begin behind t.
fn size_at(kind: Kind, t: &[u32], at: usize) -> usize
    ensures { result ≡ size kind at t.now }
{
    match kind {
        Kind::Fixed(n) => n,
        Kind::Variable => t.get(at).copied().unwrap_or(0) as usize,
    }
}

// Whether a record of n words is neither empty nor larger than the data area.
fn is_right(l: Layout, n: usize) -> bool
    requires { Fine l }
    ensures { result ≡ right l n }
{
    1 <= n && n <= l.wpb - l.leaders
}

// Whether the layout's fixed records are so: of a variable one its own length tells.
fn is_fixed_right(l: Layout) -> bool
    requires { Fine l }
    ensures { result ≡ fixed_right l }
{
    match l.kind {
        Kind::Fixed(n) => is_right(l, n),
        Kind::Variable => true,
    }
}

// Whether a record of n words has room from word `at` of the data area on.
fn has_room(l: Layout, at: usize, n: usize) -> bool
    requires { Fine l }
    ensures { result ≡ room l at n }
{
    let area = l.wpb - l.leaders;
    at <= area && n <= area - at
}

// Whether the record of n words at word `at` of the data area is not empty and lies in it.
fn lies_at(l: Layout, at: usize, n: usize) -> bool
    requires { Fine l }
    ensures { result ≡ (leb 1 n && room l at n) }
{
    1 <= n && has_room(l, at, n)
}

// The first place of the next block.
fn next(place: Place) -> Place
    requires { place.block + 1 < 2 ^ 64 }
    ensures { result ≡ next place }
{
    Place {
        block: place.block + 1,
        at: 0,
    }
}

// The place itself where a record of n words has room there, else the next block.
fn put_place(l: Layout, place: Place, file: usize, n: usize) -> Place
    requires { InBlock l place file }
    ensures { result ≡ put_place l place n }
{
    if has_room(l, place.at, n) {
        place
    } else {
        next(place)
    }
}

// Where PUT lays the record in the workspace.
pub fn plan_put(l: Layout, place: Place, file: usize, work: &[u32]) -> Result<Row, Refusal>
    ensures { checked result ≡ put_spot l place file work.now }
{
    require(is_sized(l, file, work.len()), Refusal::WrongSize)?;
    let n = size_at(l.kind, work, 0);
    require(is_right(l, n), Refusal::WrongLength)?;
    let blocks = file / l.wpb;
    require(place.block < blocks, Refusal::NoRoom)?;
    let q = put_place(l, place, file, n);
    require(q.block < blocks, Refusal::NoRoom)?;
    Ok(Row { place: q, words: n })
}

// Whether the next record is in the block that the place names: a fixed one if it has room, a variable one unless a zero word or the
// block's end stands there.
fn is_here(l: Layout, place: Place, file: &[u32]) -> bool
    requires { InBlock l place (length file.now) }
    ensures { result ≡ stays_at l place file.now }
{
    let at = place.at;
    match l.kind {
        Kind::Fixed(n) => has_room(l, at, n),
        Kind::Variable => at == 0
            || (at < l.wpb - l.leaders && words::word_at(file, word_of(l, place, file)) != 0),
    }
}

// Where the next record is: there, or at the start of the next block.
fn get_place(l: Layout, place: Place, file: &[u32]) -> Place
    requires { InBlock l place (length file.now) }
    ensures { result ≡ get_place l place file.now }
{
    if is_here(l, place, file) {
        place
    } else {
        next(place)
    }
}

// The record that begins at a place of the data area, whose block may not be there.
fn row_from(l: Layout, q: Place, file: &[u32]) -> Result<Row, Refusal>
    requires { InArea l q (length file.now) }
    ensures { checked result ≡ row_from l q file.now }
{
    require(q.block < file.len() / l.wpb, Refusal::AtEnd)?;
    let n = size_at(l.kind, file, word_of(l, q, file));
    require(lies_at(l, q.at, n), Refusal::WrongLength)?;
    Ok(Row { place: q, words: n })
}

// Where the record lies that GET reads next.
pub fn plan_get(
    l: Layout,
    place: Place,
    left: usize,
    file: &[u32],
    work: usize,
) -> Result<Row, Refusal>
    ensures { checked result ≡ get_spot l place left file.now work }
{
    require(is_sized(l, file.len(), work), Refusal::WrongSize)?;
    require(is_fixed_right(l), Refusal::WrongLength)?;
    require(left != 0, Refusal::AtEnd)?;
    require(place.block < file.len() / l.wpb, Refusal::AtEnd)?;
    row_from(l, get_place(l, place, file), file)
}
