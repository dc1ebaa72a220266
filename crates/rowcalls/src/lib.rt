// PUT and GET with a row of seven words, for programs in other languages: the row says layout, place and how many are left, and the place
// and what is left are written back. Words that are no row answer 020007 and change nothing.
#![tactic(auto)]

mod row;

ghost use Rattle.std.specs.Prelude.{◌≡◌};
ghost use Rattle.rowcalls.specs.Calls.{returned, put_called, get_called};

use numbers::WRONG_SIZE;
use row::{is_row, layout_of, place_of, put_place, put_rest};

// PUT.
pub fn put(row: &mut [u32], file: &mut [u32], work: &[u32]) -> u64
    ensures { returned result row.new file.new work.now ≡ put_called row.old file.old work.now }
{
    if !is_row(row, file.len()) {
        return u64::from(WRONG_SIZE);
    }
    let answer = sequential::put(layout_of(row), place_of(row), file, work);
    put_place(row, answer.place);
    u64::from(answer.number)
}

// GET.
pub fn get(row: &mut [u32], file: &[u32], work: &mut [u32]) -> u64
    ensures { returned result row.new file.now work.new ≡ get_called row.old file.now work.old }
{
    if !is_row(row, file.len()) {
        return u64::from(WRONG_SIZE);
    }
    let left = words::word_at(row, 6);
    let answer = sequential::get(layout_of(row), place_of(row), left, file, work);
    put_rest(row, answer.place, answer.left);
    u64::from(answer.number)
}
