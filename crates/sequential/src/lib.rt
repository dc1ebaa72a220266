// Records in a row: sequential blocks, each some leader words and then a data area with fixed or variable records. PUT lays a record at a
// place, GET reads the one there; both give back the place behind it.
#![tactic(auto)]

mod plan;

ghost use Rattle.std.specs.Prelude.{◌≡◌, ◌+◌, ◌≤◌, length};
ghost use Rattle.sequential.specs.Rows.{closed, laid, behind};
ghost use Rattle.sequential.specs.Lent.{Fine, LiesIn};
ghost use Rattle.sequential.specs.Calls.{put_gave, put_row, get_gave, get_row};

use numbers::DONE;
use plan::{plan_get, plan_put, word_of};

// The kind of a file's records: all of these words, or each led by its own length in words.
#[derive(Clone, Copy)]
pub enum Kind {
    Fixed(usize),
    Variable,
}

// The form of a file of sequential blocks: words of a block, leader words among them, and the kind of its records.
#[derive(Clone, Copy)]
pub struct Layout {
    pub wpb: usize,
    pub leaders: usize,
    pub kind: Kind,
}

// A place in such a file: a block, counted from 0, and a word of its data area.
#[derive(Clone, Copy)]
pub struct Place {
    pub block: usize,
    pub at: usize,
}

// Where a record lies, and its words.
#[derive(Clone, Copy)]
pub struct Row {
    pub place: Place,
    pub words: usize,
}

// PUT's number, and the place behind what is put so far.
// Two kinds of answers, with numbers in them: README names `put` and `get`, whose answers they are, and what callers use may not change.
#[derive(Clone, Copy)]
pub struct PutAnswer {
    pub number: u32,
    pub place: Place,
}

// GET's number, the place behind what is read so far, and how many of those put are still to be read.
#[derive(Clone, Copy)]
pub struct GetAnswer {
    pub number: u32,
    pub place: Place,
    pub left: usize,
}

// The place behind a record.
fn behind_row(row: Row) -> Place
    requires { row.place.at + row.words ≤ 4096 }
    ensures { result ≡ behind row }
{
    Place {
        block: row.place.block,
        at: row.place.at + row.words,
    }
}

// Whether a zero word goes behind the record: a variable one that does not fill its block.
fn closes(l: Layout, row: Row) -> bool
    requires { Fine l × (row.place.at + row.words ≤ 4096) }
    ensures { result ≡ closed l row }
{
    match l.kind {
        Kind::Fixed(_) => false,
        Kind::Variable => row.place.at + row.words < l.wpb - l.leaders,
    }
}

// Writes the record, and the zero word behind it.
fn lay(l: Layout, row: Row, file: &mut [u32], work: &[u32])
    requires { LiesIn l row (length file.old) × (row.words ≤ length work.now) }
    ensures { file.new ≡ laid l row work.now file.old }
{
    let n = row.words;
    let start = word_of(l, row.place, file);
    words::copy_words(file, start, work, 0, n);
    if closes(l, row) {
        words::zero_words(file, start + n, 1);
    }
}

// PUT: the record in the workspace goes to the place, or to the next block where it has no room there.
pub fn put(l: Layout, place: Place, file: &mut [u32], work: &[u32]) -> PutAnswer
    ensures { put_gave result file.new ≡ put_row l place file.old work.now }
{
    match plan_put(l, place, file.len(), work) {
        Ok(row) => {
            lay(l, row, file, work);
            PutAnswer {
                number: DONE,
                place: behind_row(row),
            }
        }
        Err(refusal) => PutAnswer {
            number: u32::from(refusal),
            place,
        },
    }
}

// GET: the record at the place, or the first of the next block, goes to the workspace.
pub fn get(l: Layout, place: Place, left: usize, file: &[u32], work: &mut [u32]) -> GetAnswer
    ensures { get_gave result work.new ≡ get_row l place left file.now work.old }
{
    match plan_get(l, place, left, file, work.len()) {
        Ok(row) => {
            let start = word_of(l, row.place, file);
            words::copy_words(work, 0, file, start, row.words);
            GetAnswer {
                number: DONE,
                place: behind_row(row),
                left: left - 1,
            }
        }
        Err(refusal) => GetAnswer {
            number: u32::from(refusal),
            place,
            left,
        },
    }
}
