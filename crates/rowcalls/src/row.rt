// The row of seven words: what it says, and how it is written back.
ghost use Rattle.std.specs.Prelude.{◌≡◌, ◌≤◌, length, get_or, set};
ghost use Rattle.rowcalls.specs.Words.{is_row, kind_of, layout_of, place_of, at_place, most_word, Small};

use sequential::{Kind, Layout, Place};

const ROW_WORDS: usize = 7;

// Whether the words are a row, for a file of so many words.
#[tactic(auto, unfolding(crate::specs::Words::is_row))]
pub fn is_row(row: &[u32], file: usize) -> bool
    ensures { result ≡ is_row row.now file }
{
    row.len() == ROW_WORDS && row[2] <= 1 && file <= 4294967295 * words::word_at(row, 0)
}

#[tactic(auto, unfolding(crate::specs::Words::kind_of))]
fn kind_of(row: &[u32]) -> Kind
    requires { length row.now ≡ 7 }
    ensures { result ≡ kind_of row.now }
{
    if row[2] == 0 {
        Kind::Fixed(words::word_at(row, 3))
    } else {
        Kind::Variable
    }
}

// The layout that the row says.
#[tactic(auto, unfolding(crate::specs::Words::layout_of))]
pub fn layout_of(row: &[u32]) -> Layout
    requires { length row.now ≡ 7 }
    ensures { result ≡ layout_of row.now }
{
    Layout {
        wpb: words::word_at(row, 0),
        leaders: words::word_at(row, 1),
        kind: kind_of(row),
    }
}

// The place that the row says.
#[tactic(auto, unfolding(crate::specs::Words::place_of))]
pub fn place_of(row: &[u32]) -> Place
    requires { length row.now ≡ 7 }
    ensures { result ≡ place_of row.now }
{
    Place {
        block: words::word_at(row, 4),
        at: words::word_at(row, 5),
    }
}

// Writes a place into the row.
#[tactic(auto, unfolding(crate::specs::Words::at_place))]
pub fn put_place(row: &mut [u32], q: Place)
    requires { (length row.old ≡ 7) × Small q }
    ensures { row.new ≡ at_place row.old q }
{
    row[4] = q.block as u32;
    row[5] = q.at as u32;
}

// Writes a place and how many are left into the row.
pub fn put_rest(row: &mut [u32], q: Place, left: usize)
    requires { (length row.old ≡ 7) × Small q × (left ≤ most_word) }
    ensures { row.new ≡ set (at_place row.old q) 6 left }
{
    put_place(row, q);
    row[6] = left as u32;
}
