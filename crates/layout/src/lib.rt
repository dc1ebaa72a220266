// What a good file is: the words of a new one, and the inspection behind OPEN, with its marks. One walk; the first fault ends it.
// Parameters and file stay two beside `Fit`: a Seen would ask for a buffer, and the walk changes nothing but the marks.
#![tactic(auto)]

mod blocks;
mod marking;
mod rows;

ghost use Rattle.std.specs.Prelude.{◌≡◌, true, [], ◌∷◌, ◌++◌, ◌+◌, ◌≤◌, length};
ghost use Rattle.words.specs.Words.{put, zeros};
ghost use Rattle.words.specs.Keys.{ones};
ghost use Rattle.drum.specs.Params.{good_params, file_size, tag_of, index_kind, detail_kind};
ghost use Rattle.layout.specs.Create.{created, master_on, index_on, detail_on};
ghost use Rattle.layout.specs.Inspect.{rest_ok, master_ok, walked, layout_marks};
ghost use Rattle.layout.specs.Inspected.{flagged, stepped, Fit, Ranged, left_marks};

pub use blocks::block_of;
use blocks::{chain_held, sections_held};
use drum::Description;
pub use marking::clear;
use marking::{all_set, none_set};
use numbers::{Refusal, require, within};
use rows::last_row;

// Whether the file is as under Layout; the marks if so, and all 0 if not.
// A bool: what it refuses has one number.
pub fn inspect(p: Description, f: &[u32], marks: &mut [u8]) -> bool
    requires fit { Fit p f.now }
    requires marks_len { length marks.old ≡ p.n }
    ensures { (layout_marks p f.now ≡ flagged result marks.new) × (marks.new ≡ left_marks p.n (layout_marks p f.now)) }
{
    clear(marks);
    match walk(p, f, marks) {
        Ok(()) => true,
        Err(_) => {
            clear(marks);
            false
        }
    }
}

// The whole walk, on marks that are all 0: first that no word is too large, and the master's numbers.
fn walk(p: Description, f: &[u32], marks: &mut [u8]) -> Result<(), Refusal>
    requires fit { Fit p f.now }
    requires marks_value { marks.old ≡ zeros p.n }
    ensures { layout_marks p f.now ≡ stepped result marks.new }
{
    require(words::all_words(f, 0, f.len()), Refusal::BadFile)?;
    within(1, p.control, words::word_at(f, 0))?;
    within(1, p.n + 1, words::word_at(f, 2))?;
    walk_on(p, f, marks)
}

// The walk itself: master, sections, chain and rest.
fn walk_on(p: Description, f: &[u32], marks: &mut [u8]) -> Result<(), Refusal>
    requires fit { Fit p f.now × Ranged p f.now }
    requires marks_value { marks.old ≡ zeros p.n }
    ensures { walked p f.now ≡ stepped result marks.new }
{
    let n = words::word_at(f, 0);
    let head = words::word_at(f, 1);
    let lowest = words::word_at(f, 2);
    require(master_ok(p, f, n), Refusal::BadFile)?;
    sections_held(p, f, n, marks)?;
    chain_held(p, f, head, marks)?;
    require(rest_ok(p, f, lowest, marks), Refusal::BadFile)
}

// Whether the master's words behind its n entries are 0, and the last bound is ONES.
fn master_ok(p: Description, f: &[u32], n: usize) -> bool
    requires fit { Fit p f.now }
    requires le_n { (1 ≤ n) × (n ≤ p.control) }
    ensures { result ≡ master_ok p f.now n }
{
    let k = p.k;
    let m = p.master_size();
    let behind = 3 + n * (k + 1);
    words::all_are(f, behind, m - behind, 0)
        && words::all_are(f, last_row(f, 3, k + 1, n), k, 262143)
}

// Whether each block below `lowest` is marked, and the others are not and all 0.
fn rest_ok(p: Description, f: &[u32], lowest: usize, marks: &[u8]) -> bool
    requires fit { Fit p f.now }
    requires marks_len { (length marks.now ≡ p.n) × (1 ≤ lowest) × (lowest ≤ p.n + 1) }
    ensures { result ≡ rest_ok p f.now lowest marks.now }
{
    let s = p.start(lowest);
    all_set(&marks[..lowest - 1])
        && none_set(&marks[lowest - 1..])
        && words::all_are(f, s, f.len() - s, 0)
}

// Writes the words of a new file, every one of them.
pub fn lay_out(p: Description, file: &mut [u32])
    requires { (good_params p ≡ true) × (length file.old ≡ file_size p) }
    ensures { file.new ≡ created p }
{
    let first = p.start(1);
    let second = p.start(2);
    lay_master(file, p.k);
    lay_blocks(p, file, first, second);
}

// Writes 0 in every word, and then the master's that are not: one section, the lowest block never used, the section's entry.
fn lay_master(t: &mut [u32], k: usize)
    requires { 4 + k ≤ length t.old }
    ensures { t.new ≡ master_on k (zeros (length t.old)) }
{
    words::zero_words(t, 0, t.len());
    t[0] = 1;
    t[2] = 3;
    lay_entry(t, 3, k, 1);
}

// Writes the words of the two blocks that are not 0: of the index block at word `first`, of the detail block at word `second`.
fn lay_blocks(p: Description, t: &mut [u32], first: usize, second: usize)
    requires { (first + (2 + p.k) ≤ length t.old) × (second + (1 + p.k) ≤ length t.old) }
    ensures { t.new
        ≡ detail_on second (tag_of p detail_kind + 1) p.k (index_on first (tag_of p index_kind + 1) p.k t.old) }
{
    let k = p.k;
    lay_index(t, first, p.tag(Description::INDEX), k);
    lay_detail(t, second, p.tag(Description::DETAIL), k);
}

// Writes the index block's, at word `at`: one entry, counted with the block's tag.
fn lay_index(t: &mut [u32], at: usize, tag: usize, k: usize)
    requires { (at + (2 + k) ≤ length t.old) × (tag ≤ 4096) }
    ensures { t.new ≡ index_on at (tag + 1) k t.old }
{
    words::put_word(t, at, tag + 1);
    lay_entry(t, at + 1, k, 2);
}

// Writes the detail block's, at word `at`: the end record, counted with the block's tag.
fn lay_detail(t: &mut [u32], at: usize, tag: usize, k: usize)
    requires { (at + (1 + k) ≤ length t.old) × (tag ≤ 8192) }
    ensures { t.new ≡ detail_on at (tag + 1) k t.old }
{
    words::put_word(t, at, tag + 1);
    lay_ones(t, at + 1, k);
}

// Writes an entry at word `at`: the bound ONES, and a block.
fn lay_entry(t: &mut [u32], at: usize, k: usize, block: u32)
    requires { at + k + 1 ≤ length t.old }
    ensures { t.new ≡ put t.old at (ones k ++ (block ∷ [])) }
{
    lay_ones(t, at, k);
    t[at + k] = block;
}

// Writes the key ONES of k words at word `at`.
fn lay_ones(t: &mut [u32], at: usize, k: usize)
    requires { at + k ≤ length t.old }
    ensures { t.new ≡ put t.old at (ones k) }
{
    t[at..at + k].fill(262143);
}
