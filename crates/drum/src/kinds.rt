// What word 0 of a block says: its kind where the form has one, and its count; and a free block's link. Both block forms are read here and
// nowhere else.
ghost use Rattle.std.specs.Prelude.{◌≡◌, ◌-◌, ◌<◌, length};
ghost use Rattle.table.specs.Tables.{count};
ghost use Rattle.drum.specs.Params.{index_shape, detail_shape};
ghost use Rattle.drum.specs.Blocks.{link_in, is_free};

use super::Description;

// Word 0 less the tag of its kind, 0 where it is below.
pub fn less(n: usize, tag: usize) -> usize
    ensures { result ≡ n - tag }
{
    n.saturating_sub(tag)
}

// How many entries the text of an index block says that it has.
pub fn entries_in(p: Description, t: &[u32]) -> usize
    requires { 0 < length t.now }
    ensures { result ≡ count (index_shape p) t.now }
{
    less(words::word_at(t, 0), p.tag(Description::INDEX))
}

// How many records the text of a detail block says that it has.
pub fn records_in(p: Description, t: &[u32]) -> usize
    requires { 0 < length t.now }
    ensures { result ≡ count (detail_shape p) t.now }
{
    less(words::word_at(t, 0), p.tag(Description::DETAIL))
}

// Whether a text's word 0 says that the block is free.
pub fn is_free(p: Description, t: &[u32]) -> bool
    requires { 0 < length t.now }
    ensures { result ≡ is_free p t.now }
{
    p.form != Description::SECOND || words::word_at(t, 0) == Description::FREE
}

// The link in the text of a free block.
pub fn link_in(p: Description, t: &[u32]) -> usize
    requires { 1 < length t.now }
    ensures { result ≡ link_in p t.now }
{
    words::word_at(t, p.link_place())
}
