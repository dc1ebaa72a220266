// Blocks changed where they lie in the file. Each change is that of a table's words, and the file is then the same but for that block.
ghost use Rattle.std.specs.Prelude.{◌≡◌, ◌+◌, ◌≤◌, ◌<◌, [], length, set};
ghost use Rattle.words.specs.Words.{part};
ghost use Rattle.table.specs.Tables.{count, place, inserted, replaced, laid};
ghost use Rattle.table.specs.Splits.{renamed};
ghost use Rattle.drum.specs.Params.{index_shape};
ghost use Rattle.drum.specs.Blocks.{block_at, put_block, free_text};
ghost use Rattle.drum.specs.Inside.{HasBlock, Takes};

use super::{Description, kinds};
use table::Shape;

// Writes block b anew: a count, rows, and zeros.
pub fn lay_block(p: Description, file: &mut [u32], b: usize, count: usize, rows: &[u32])
    requires { HasBlock p file.old b × (1 + length rows.now ≤ p.wpb) × (count ≤ 262143) }
    ensures { file.new ≡ put_block p file.old b (laid p.wpb count rows.now) }
{
    let start = p.start(b);
    let end = start + p.wpb;
    lay_rows(&mut file[start..end], count, rows);
}

// Writes block b as a free block: its kind where the form has one, its link, and zeros.
pub fn free_block(p: Description, file: &mut [u32], b: usize, link: usize)
    requires { HasBlock p file.old b × (link ≤ 262143) }
    ensures { file.new ≡ put_block p file.old b (free_text p link) }
{
    let start = p.start(b);
    let end = start + p.wpb;
    let kind = p.tag(Description::FREE);
    let place = p.link_place();
    lay_free(&mut file[start..end], kind, place, link);
}

// A kind, a link at its place, and zeros, over all words of a text.
fn lay_free(t: &mut [u32], kind: usize, place: usize, link: usize)
    requires { (place < length t.old) × (kind ≤ 262143) × (link ≤ 262143) }
    ensures { t.new ≡ set (laid (length t.old) kind []) place link }
{
    let n = t.len();
    words::zero_words(t, 0, n);
    words::put_word(t, 0, kind);
    words::put_word(t, place, link);
}

// A count, rows, and zeros, over all words of a text.
fn lay_rows(t: &mut [u32], count: usize, rows: &[u32])
    requires { (1 + length rows.now ≤ length t.old) × (count ≤ 262143) }
    ensures { t.new ≡ laid (length t.old) count rows.now }
{
    let n = rows.len();
    words::put_word(t, 0, count);
    words::copy_words(t, 1, rows, 0, n);
    let rest = t.len() - 1 - n;
    words::zero_words(t, 1 + n, rest);
}

// Puts a row in before row i of block b, and counts it.
pub fn insert_in(p: Description, file: &mut [u32], b: usize, h: Shape, i: usize, row: &[u32])
    requires { HasBlock p file.old b × Takes h i (block_at p file.old b) × (h.stride ≤ length row.now) }
    ensures { file.new
        ≡ put_block p file.old b (inserted h i (part 0 h.stride row.now) (block_at p file.old b)) }
{
    let start = p.start(b);
    let end = start + p.wpb;
    table::insert_row(h, &mut file[start..end], i, row, 0);
}

// Writes a key over that of row i of block b.
pub fn set_key_in(p: Description, file: &mut [u32], b: usize, h: Shape, i: usize, key: &[u32])
    requires { HasBlock p file.old b × (place h i + h.width ≤ p.wpb) × (h.width ≤ length key.now) }
    ensures { file.new ≡ put_block p file.old b (replaced h i (part 0 h.width key.now) (block_at p file.old b)) }
{
    let start = p.start(b);
    let end = start + p.wpb;
    table::replace_row(h, &mut file[start..end], i, key, 0, h.width);
}

// Lets entry i of block b name block x.
pub fn set_name_in(p: Description, file: &mut [u32], b: usize, h: Shape, i: usize, x: usize)
    requires { HasBlock p file.old b × (place h i + h.width < p.wpb) × (x ≤ 262143) }
    ensures { file.new ≡ put_block p file.old b (renamed h i x (block_at p file.old b)) }
{
    let start = p.start(b);
    let end = start + p.wpb;
    let at = h.base + i * h.stride + h.width;
    words::put_word(&mut file[start..end], at, x);
}

// How many entries index block b says that it has.
pub fn entries_of(p: Description, file: &[u32], b: usize) -> usize
    requires { HasBlock p file.now b }
    ensures { result ≡ count (index_shape p) (block_at p file.now b) }
{
    kinds::less(words::word_at(file, p.start(b)), p.tag(Description::INDEX))
}
