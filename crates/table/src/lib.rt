// Tables in slices of words: rows of `stride` words from word `base` on, each beginning with a key of `width` words, their count in
// word 0 after the tag of their kind. Master, index block and detail block are such tables, so one function serves all three.
#![tactic(auto)]

ghost use Rattle.std.specs.Prelude.{◌≡◌, ◌+◌, ◌*◌, ◌^◌, ◌≤◌, ◌<◌, length};
ghost use Rattle.words.specs.Words.{part};
ghost use Rattle.table.specs.declared.Want.TheVariants.{Equal};
ghost use Rattle.table.specs.Tables.{count, place, first_where, asked, fits, AllBelow, Pair, differs, opened, closed, inserted, removed, replaced};

use std::cmp::Ordering;

#[derive(Clone, Copy)]
pub struct Shape {
    pub base: usize,
    pub stride: usize,
    pub width: usize,
    pub tag: usize,
}

impl Shape {
    // Where row i begins.
    fn place(self, i: usize) -> usize
        requires { place self i < 2 ^ 64 }
        ensures { result ≡ place self i }
    {
        self.base + i * self.stride
    }
}

// What a search looks for: a row whose key equals the one sought, is not below it, or is above it.
#[derive(Clone, Copy)]
pub enum Want {
    Equal,
    NotBelow,
    Over,
}

// Whether a row is wanted whose key stands so to the one sought.
fn is_wanted(w: Want, o: Ordering) -> bool
    ensures { result ≡ asked w o }
{
    match w {
        Want::Equal => o.is_eq(),
        Want::NotBelow => o.is_ge(),
        Want::Over => o.is_gt(),
    }
}

// How many rows at the front begin with a word below the key's first: their keys are below it, so no search wants them. Where names differ
// early, most rows of a search are passed here.
// The searches stay functions of table, count, key and place: a struct would be built once, to be taken apart again. By number: the place is answered.
fn low_rows(h: Shape, t: &[u32], n: usize, key: &[u32], at: usize) -> usize
    requires { (place h n ≤ length t.now) × (h.width ≤ h.stride) × (at + h.width ≤ length key.now) }
    ensures { (result ≤ n) × AllBelow h (part at h.width key.now) t.now result }
{
    if h.width == 0 {
        return 0;
    }
    let first = key[at];
    for i in 0..n {
        if first <= t[h.place(i)] {
            return i;
        }
    }
    n
}

// Two words as one number, the first heavier: of two such numbers the smaller is that of the words that are below.
fn pair(a: u32, b: u32) -> u64
    ensures { result ≡ a * 4294967296 + b }
{
    u64::from(a) * 4294967296 + u64::from(b)
}

// The words i and i + 1 of t as one such number.
fn pair_at(t: &[u32], i: usize) -> u64
    requires { i + 2 ≤ length t.now }
    ensures { Pair t.now i result }
{
    pair(t[i], t[i + 1])
}

// How many rows at the front are below the key, the first `from` being so: those too that begin with the key's first word and go on with two
// words below its next two. Where names share their first words, most rows of a search are passed here.
// By number: the place is answered.
fn low_after(h: Shape, t: &[u32], from: usize, n: usize, key: &[u32], at: usize) -> usize
    requires { (place h n ≤ length t.now)
        × (h.width ≤ h.stride)
        × (at + h.width ≤ length key.now)
        × (from ≤ n)
        × AllBelow h (part at h.width key.now) t.now from }
    ensures { (result ≤ n) × AllBelow h (part at h.width key.now) t.now result }
{
    if h.width < 3 {
        return from;
    }
    let first = key[at];
    let next = pair_at(key, at + 1);
    for i in from..n {
        let word = h.place(i);
        if t[word] != first || next <= pair_at(t, word + 1) {
            return i;
        }
    }
    n
}

// The first row that stands to the key as is wanted, else n.
fn find_row(w: Want, h: Shape, t: &[u32], n: usize, key: &[u32], at: usize) -> usize
    requires { (place h n ≤ length t.now) × (h.width ≤ h.stride) × (at + h.width ≤ length key.now) }
    ensures { result ≡ first_where (fits w h (part at h.width key.now) t.now) n }
{
    let low = low_rows(h, t, n, key, at);
    let first = low_after(h, t, low, n, key, at);
    for i in first..n {
        if is_wanted(w, words::compare_keys(t, h.place(i), key, at, h.width)) {
            return i;
        }
    }
    n
}

// The first word in which the key of the row at word `place` differs from the key sought, else the width.
// By number: the place is answered.
fn same_words(t: &[u32], place: usize, key: &[u32], at: usize, width: usize) -> usize
    requires { (place + width ≤ length t.now) × (at + width ≤ length key.now) }
    ensures { result ≡ first_where (differs t.now place key.now at) width }
{
    for m in 0..width {
        if t[place + m] != key[at + m] {
            return m;
        }
    }
    width
}

// The first row with the key itself, else n. One word that differs rules a row out, so the word that ruled out the last row compared is
// looked at first: most rows are passed by one word, however many of the first words they share.
fn same_row(h: Shape, t: &[u32], n: usize, key: &[u32], at: usize) -> usize
    requires { (place h n ≤ length t.now) × (h.width ≤ h.stride) × (at + h.width ≤ length key.now) }
    ensures { result ≡ first_where (fits Equal h (part at h.width key.now) t.now) n }
{
    if h.width == 0 {
        return 0;
    }
    let mut m = 0;
    let mut word = key[at];
    for i in 0..n {
        let row = h.place(i);
        if t[row + m] == word {
            m = same_words(t, row, key, at, h.width);
            if m == h.width {
                return i;
            }
            word = key[at + m];
        }
    }
    n
}

// The first of the n rows of t that is wanted for the key at word `at`, else n.
// A place beside the key, as the definitions' `part at` has it.
pub fn find(w: Want, h: Shape, t: &[u32], n: usize, key: &[u32], at: usize) -> usize
    requires { (place h n ≤ length t.now) × (h.width ≤ h.stride) × (at + h.width ≤ length key.now) }
    ensures { result ≡ first_where (fits w h (part at h.width key.now) t.now) n }
{
    // Each by a call of its own, so that each search is compiled with what it wants known.
    match w {
        Want::Equal => same_row(h, t, n, key, at),
        Want::NotBelow => find_row(w, h, t, n, key, at),
        Want::Over => find_row(w, h, t, n, key, at),
    }
}

// Moves the words a to e of t up by n, and writes n words of row before them.
pub fn open_words(t: &mut [u32], a: usize, e: usize, row: &[u32], from: usize, n: usize)
    requires { (a ≤ e) × (e + n ≤ length t.old) × (from + n ≤ length row.now) }
    ensures { t.new ≡ opened t.old a e (part from n row.now) }
{
    words::move_words(t, a, a + n, e - a);
    words::copy_words(t, a, row, from, n);
}

// Moves the words of t from a + n to e down by n, and clears the n words after them.
pub fn close_words(t: &mut [u32], a: usize, e: usize, n: usize)
    requires { (a + n ≤ e) × (e ≤ length t.old) }
    ensures { t.new ≡ closed t.old a e n }
{
    words::move_words(t, a + n, a, e - a - n);
    words::zero_words(t, e - n, n);
}

// The count of a table: word 0 less the tag of its kind, 0 where word 0 is below it.
pub fn count_of(h: Shape, t: &[u32]) -> usize
    requires { 1 ≤ length t.now }
    ensures { result ≡ count h t.now }
{
    words::word_at(t, 0).saturating_sub(h.tag)
}

// Puts the row at word `from` of `row` in before row i, and counts it.
// A place beside the row, as the definition's `part from` has it.
pub fn insert_row(h: Shape, t: &mut [u32], i: usize, row: &[u32], from: usize)
    requires { (1 ≤ h.base)
        × (place h (count h t.old) + h.stride ≤ length t.old)
        × (i ≤ count h t.old)
        × (h.tag + count h t.old < 262143)
        × (from + h.stride ≤ length row.now) }
    ensures { t.new ≡ inserted h i (part from h.stride row.now) t.old }
{
    let n = count_of(h, t);
    open_words(t, h.place(i), h.place(n), row, from, h.stride);
    words::put_word(t, 0, h.tag + (n + 1));
}

// Takes row i out, and counts it off.
pub fn remove_row(h: Shape, t: &mut [u32], i: usize)
    requires { (1 ≤ h.base) × (place h (count h t.old) ≤ length t.old) × (i < count h t.old) × (h.tag + count h t.old ≤ 262143) }
    ensures { t.new ≡ removed h i t.old }
{
    let n = count_of(h, t);
    close_words(t, h.place(i), h.place(n), h.stride);
    words::put_word(t, 0, h.tag + (n - 1));
}

// Writes n words of row from word `from` on over row i: the whole row, or its key alone.
// A place beside the row, as the definition's `part from` has it.
pub fn replace_row(h: Shape, t: &mut [u32], i: usize, row: &[u32], from: usize, n: usize)
    requires { (place h i + n ≤ length t.old) × (from + n ≤ length row.now) }
    ensures { t.new ≡ replaced h i (part from n row.now) t.old }
{
    words::copy_words(t, h.place(i), row, from, n);
}
