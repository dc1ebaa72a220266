// The blocks, each by its mark: the count of one in use and the link of a chained one as the other form has them.
ghost use Rattle.std.specs.Prelude.{◌≡◌, true, ◌≤◌, ◌<◌, length, set};
ghost use Rattle.words.specs.Words.{all_words};
ghost use Rattle.drum.specs.Blocks.{block_at, put_block};
ghost use Rattle.layout.specs.Inspected.{Fit};
ghost use Rattle.layout.specs.Turned.{turned_free, turned_text};
ghost use Rattle.turn.specs.Fits.{Turnable, recounted, blocks_turned};

use super::{marking, other};
use drum::{Description, inside, kinds};

// Writes a number as the word of t at word i, which may pass the largest word: the count has not been compared with the block's room here.
fn set_word(t: &mut [u32], i: usize, x: usize)
    requires { (i < length t.old) × (x ≤ 4294967295) }
    ensures { t.new ≡ set t.old i x }
{
    t[i] = x as u32;
}

// The count of block b, of this kind, with the other form's tag.
fn turn_count(p: Description, file: &mut [u32], b: usize, kind: usize)
    requires { Turnable p file.old b × (kind ≤ 8192) }
    ensures { file.new ≡ put_block p file.old b (recounted p kind (block_at p file.old b)) }
{
    let start = p.start(b);
    let count = kinds::less(words::word_at(file, start), p.tag(kind));
    let tag = other(p).tag(kind);
    set_word(file, start, tag + count);
}

// The link of block b where the other form has it, with its kind there.
fn turn_link(p: Description, file: &mut [u32], b: usize)
    requires { Turnable p file.old b }
    ensures { file.new ≡ put_block p file.old b (turned_free p (block_at p file.old b)) }
{
    let at = p.start(b) + p.link_place();
    let link = words::word_at(file, at);
    inside::free_block(other(p), file, b, link);
}

// Block b by its mark; one never used stays.
fn turn_block(p: Description, file: &mut [u32], b: usize, mark: u8)
    requires { Turnable p file.old b }
    ensures { file.new ≡ put_block p file.old b (turned_text p mark (block_at p file.old b)) }
{
    match mark {
        marking::INDEX => turn_count(p, file, b, Description::INDEX),
        marking::REACHED => turn_count(p, file, b, Description::DETAIL),
        marking::CHAINED => turn_link(p, file, b),
        _ => {}
    }
}

// All blocks.
pub fn turn_blocks(p: Description, file: &mut [u32], marks: &[u8])
    requires { Fit p file.old × (all_words file.old ≡ true) × (length marks.now ≡ p.n) }
    ensures { file.new ≡ blocks_turned p marks.now file.old }
{
    for (b, mark) in marks.iter().enumerate() {
        turn_block(p, file, b + 1, *mark);
    }
}
