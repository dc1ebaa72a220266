// The entry of a new block: behind the last of its index block, or in a new index block with a section of its own.
// A block is cut out of the file here, and not in drum: drum's changes are of one row each, and one for both of these would be called here alone.
ghost use Rattle.std.specs.Prelude.{◌≡◌, [], ◌∷◌, ◌++◌, ◌+◌, ◌≤◌, ◌<◌};
ghost use Rattle.words.specs.Words.{part};
ghost use Rattle.words.specs.Keys.{ones};
ghost use Rattle.table.specs.Tables.{count};
ghost use Rattle.drum.specs.Params.{I, index_shape};
ghost use Rattle.drum.specs.Blocks.{block_at, put_block};
ghost use Rattle.rules.specs.XtendDone.{bounded, extended};
ghost use Rattle.xtend.specs.Fits.{LastIn, LastRoomIn, IndexTakes, SectionIn};
ghost use Rattle.xtend.specs.Steps.{indexed, sectioned};

use drum::Description;
use table::Shape;

// The entry with the bound ONES for block b. Fixed memory: K + 1 is at most 64, and known only when the program runs.
fn ones_entry(k: usize, b: usize) -> [u32; 64]
    requires { (k ≤ 63) × (b ≤ 262143) }
    ensures { part 0 (k + 1) result ≡ ones k ++ (b ∷ []) }
{
    let mut entry = [262143u32; 64];
    words::put_word(&mut entry, k, b);
    entry
}

// The last bound of a table of entries becomes the key.
fn set_bound(p: Description, h: Shape, t: &mut [u32], key: &[u32])
    requires { LastIn p h t.old key.now }
    ensures { t.new ≡ bounded h (part 0 p.k key.now) t.old }
{
    let last = table::count_of(h, t) - 1;
    table::replace_row(h, t, last, key, 0, p.k);
}

// The last bound becomes the key, and an entry with the bound ONES for block b is put in behind it.
fn extend(p: Description, h: Shape, t: &mut [u32], key: &[u32], b: usize)
    requires { LastRoomIn p h t.old key.now b }
    ensures { t.new ≡ extended p h (part 0 p.k key.now) b t.old }
{
    let entry = ones_entry(p.k, b);
    let n = table::count_of(h, t);
    set_bound(p, h, t, key);
    table::insert_row(h, t, n, &entry, 0);
}

// The same in index block i, where it lies in the file.
pub fn extend_in(p: Description, file: &mut [u32], i: usize, key: &[u32], b: usize)
    requires { IndexTakes p file.old i key.now × (count (index_shape p) (block_at p file.old i) < I p) × (b ≤ p.n) }
    ensures { file.new
        ≡ put_block p file.old i (extended p (index_shape p) (part 0 p.k key.now) b (block_at p file.old i)) }
{
    let start = p.start(i);
    let end = start + p.wpb;
    extend(p, p.index_shape(), &mut file[start..end], key, b);
}

// The entry for block b starts index block x, after index block i.
fn start_index(p: Description, file: &mut [u32], key: &[u32], i: usize, b: usize, x: usize)
    requires { SectionIn p file.old i key.now b x }
    ensures { file.new ≡ indexed p (part 0 p.k key.now) i b x file.old }
{
    let entry = ones_entry(p.k, b);
    let h = p.index_shape();
    let start = p.start(i);
    let end = start + p.wpb;
    set_bound(p, h, &mut file[start..end], key);
    drum::inside::lay_block(p, file, x, h.tag + 1, &entry[..p.k + 1]);
}

// The same, and index block x starts a section.
pub fn start_section(p: Description, file: &mut [u32], key: &[u32], i: usize, b: usize, x: usize)
    requires { SectionIn p file.old i key.now b x }
    ensures { file.new ≡ sectioned p (part 0 p.k key.now) i b x file.old }
{
    start_index(p, file, key, i, b, x);
    extend(p, p.master_shape(), file, key, x);
}
