// What the text of a block says: the four tests, in their order.
ghost use Rattle.std.specs.Prelude.{◌≡◌, true, ◌+◌, ◌*◌, ◌≤◌, ◌<◌, length, get_or};
ghost use Rattle.drum.specs.Params.{good_params, detail_kind};
ghost use Rattle.layout.specs.Holds.{ascending, keys_of};
ghost use Rattle.salvage.specs.Met.{count_in, rows_from, missed as first_missed};
ghost use Rattle.salvage.specs.Reasons.{word_told};

use drum::Description;

// Why a line is written: the first test that a block's text misses, or why a record was not carried.
#[derive(Clone, Copy, Debug, PartialEq, Eq)]
pub enum Reason {
    NotMarked,
    BadCount,
    BadWord,
    BadOrder,
    SecondCopy,
    LackedRoom,
}

impl From<Reason> for usize {
    ghost use Rattle.std.specs.Prelude.{◌≡◌};
    ghost use Rattle.salvage.specs.Reasons.{word_of};

    ghost from_gives = { λ reason word. word ≡ word_of reason };

    fn from(reason: Reason) -> usize {
        match reason {
            Reason::NotMarked => 1,
            Reason::BadCount => 2,
            Reason::BadWord => 3,
            Reason::BadOrder => 4,
            Reason::SecondCopy => 5,
            Reason::LackedRoom => 6,
        }
    }
}

// How many records a text marked detail says that it has.
pub fn count_in(t: &[u32]) -> usize
    requires { (0 < length t.now) × (detail_kind ≤ get_or t.now 0 0) }
    ensures { result ≡ count_in t.now }
{
    words::word_at(t, 0) - Description::DETAIL
}

// Whether the keys of the n records of a text ascend, each below the next. By number: two rows that follow each other are compared, in a part of the text.
fn keys_ascend(p: Description, t: &[u32], n: usize) -> bool
    requires { (p.k ≤ p.wpr) × (1 + n * p.wpr ≤ length t.now) }
    ensures { result ≡ ascending (keys_of p (rows_from p.wpr 1 n t.now)) }
{
    for i in 0..n.saturating_sub(1) {
        let at = 1 + i * p.wpr;
        if !words::key_below(t, at, t, at + p.wpr, p.k) {
            return false;
        }
    }
    true
}

// The first test that a text misses, if it misses one.
pub fn missed(p: Description, t: &[u32]) -> Option<Reason>
    requires { (good_params p ≡ true) × (length t.now ≡ p.wpb) }
    ensures { word_told result ≡ first_missed p t.now }
{
    let word = words::word_at(t, 0);
    if word < Description::DETAIL || Description::FREE <= word {
        return Some(Reason::NotMarked);
    }
    let count = word - Description::DETAIL;
    if count < 1 || p.d() < count {
        return Some(Reason::BadCount);
    }
    if !words::all_words(t, 1, count * p.wpr) {
        return Some(Reason::BadWord);
    }
    if !keys_ascend(p, t, count) {
        return Some(Reason::BadOrder);
    }
    None
}
