// A full table split in two, and an entry that becomes two in the table above: detail block and index block, index block and master,
// alike.
// Places of rows are reckoned here: table's function for them is its own.
#![tactic(auto)]

ghost use Rattle.std.specs.Prelude.{◌≡◌, [], ◌∷◌, ◌++◌, ◌+◌, ◌≤◌, ◌<◌, length};
ghost use Rattle.words.specs.Words.{part};
ghost use Rattle.table.specs.Tables.{place, laid};
ghost use Rattle.table.specs.Splits.{low_count, renamed, entered};
ghost use Rattle.drum.specs.Params.{index_shape};
ghost use Rattle.drum.specs.Blocks.{block_at, put_block};
ghost use Rattle.split.specs.Halves.{FullTable};
ghost use Rattle.split.specs.Enters.{EntersIn, Enters};

use drum::Description;
use table::Shape;

// A full block of `rows` rows, and a row more that is put in at a place: the lower rows stay in block old, the others go to block new.
#[derive(Clone, Copy)]
pub struct Cut {
    pub desc: Description,
    pub shape: Shape,
    pub rows: usize,
    pub place: usize,
    pub old: usize,
    pub new: usize,
    pub ghost full: { FullTable desc shape rows place },
}

// Of n rows and one more, how many stay in the old block.
pub fn low_count(n: usize) -> usize
    requires { n ≤ 262143 }
    ensures { result ≡ low_count n }
{
    (n + 2) / 2
}

// Keeps the first n words of a block's rows, under this count; the others become 0.
fn keep(t: &mut [u32], count: usize, n: usize)
    requires { (1 + n ≤ length t.old) × (count ≤ 262143) }
    ensures { t.new ≡ laid (length t.old) count (part 1 n t.old) }
{
    let rest = t.len() - 1 - n;
    words::zero_words(t, 1 + n, rest);
    words::put_word(t, 0, count);
}

// Makes an entry: a key of k words at word `at` of t, and a block's number.
fn make_entry(entry: &mut [u32], t: &[u32], at: usize, k: usize, b: usize)
    requires { (k + 1 ≤ length entry.old) × (at + k ≤ length t.now) × (b ≤ 262143) }
    ensures { part 0 (k + 1) entry.new ≡ part at k t.now ++ (b ∷ []) }
{
    words::copy_words(entry, 0, t, at, k);
    words::put_word(entry, k, b);
}

// Lets entry i of a table name block b.
fn rename(h: Shape, t: &mut [u32], i: usize, b: usize)
    requires { (place h i + h.width < length t.old) × (b ≤ 262143) }
    ensures { t.new ≡ renamed h i b t.old }
{
    let at = h.base + i * h.stride + h.width;
    words::put_word(t, at, b);
}

// Lets entry i of a table that has room become two: the entry given, and after it the old one, which names block b.
pub fn enter(h: Shape, t: &mut [u32], i: usize, entry: &[u32], b: usize)
    requires { Enters h i t.old × (h.stride ≤ length entry.now) × (b ≤ 262143) }
    ensures { t.new ≡ entered h i (part 0 h.stride entry.now) b t.old }
{
    rename(h, t, i, b);
    table::insert_row(h, t, i, entry, 0);
}

// The same in index block x of the file, where it lies.
pub fn enter_in(p: Description, file: &mut [u32], x: usize, i: usize, entry: &[u32], b: usize)
    requires { EntersIn p file.old x i × (p.k + 1 ≤ length entry.now) × (b ≤ 262143) }
    ensures { file.new
        ≡ put_block p file.old x (entered (index_shape p) i (part 0 (p.k + 1) entry.now) b (block_at p file.old x)) }
{
    let h = p.index_shape();
    drum::inside::set_name_in(p, file, x, h, i, b);
    drum::inside::insert_in(p, file, x, h, i, entry);
}

impl Cut {
    ghost use Rattle.std.specs.Prelude.{◌≡◌, ◌+◌, ◌≤◌, ◌<◌, length};
    ghost use Rattle.words.specs.Words.{part};
    ghost use Rattle.table.specs.Tables.{replaced};
    ghost use Rattle.table.specs.Splits.{renamed};
    ghost use Rattle.drum.specs.Blocks.{block_at, put_block};
    ghost use Rattle.split.specs.Cuts.{HasRow, more_row, Shares, Divides, DividesIn, lower, upper, halved_by, entry_by};

    // Row j of the full buffer's rows with the row put in: the row itself, or one of the buffer's, which stand one lower behind the row.
    fn row_of<'a>(self, j: usize, buffer: &'a [u32], row: &'a [u32]) -> &'a [u32]
        requires { HasRow self j buffer.now row.now }
        ensures { result.now ≡ more_row self j row.now buffer.now }
    {
        let h = self.shape;
        let stride = h.stride;
        let at = h.base + j * stride;
        if self.place < j {
            let below = at - stride;
            return &buffer[below..at];
        }
        if j < self.place {
            let end = at + stride;
            return &buffer[at..end];
        }
        &row[0..stride]
    }

    // Lays row j of them where it goes in the buffer: the row itself, or the one before row j, which moves up.
    fn raise_row(self, j: usize, buffer: &mut [u32], row: &[u32])
        requires { HasRow self j buffer.old row.now × (self.place ≤ j) × (j < self.rows) }
        ensures { buffer.new ≡ replaced self.shape j (more_row self j row.now buffer.old) buffer.old }
    {
        let h = self.shape;
        if self.place < j {
            let at = h.base + j * h.stride;
            words::move_words(buffer, at - h.stride, at, h.stride);
        } else {
            table::replace_row(h, buffer, j, row, 0, h.stride);
        }
    }

    // Of a full buffer and a row put in, the lower `low` rows stay, and the others go to the new block: one row after the other, from the top
    // down, so that none is written over before it has moved. Rows below the row that stay are where they were. All that moves words in a split
    // is behind this promise.
    fn share_rows(self, low: usize, file: &mut [u32], buffer: &mut [u32], row: &[u32])
        requires { Shares self low file.old buffer.old row.now }
        ensures { (file.new
            ≡ put_block self.desc file.old self.new
            (upper self low (part 0 self.shape.stride row.now) buffer.old))
            × (buffer.new ≡ lower self low (part 0 self.shape.stride row.now) buffer.old) }
    {
        let h = self.shape;
        // rows that are all key: a row is laid into a block as its key would be
        let whole = Shape {
            width: h.stride,
            ..h
        };
        let count = h.tag + (self.rows + 1 - low);
        drum::inside::lay_block(self.desc, file, self.new, count, &[]);
        for j in (self.place.min(low)..self.rows + 1).rev() {
            if low <= j {
                let moved = self.row_of(j, buffer, row);
                drum::inside::set_key_in(self.desc, file, self.new, whole, j - low, moved);
            } else {
                self.raise_row(j, buffer, row);
            }
        }
        keep(buffer, h.tag + low, low * h.stride);
    }

    // Splits the full block in the buffer, a row put in: the halves are written to their blocks, and the entry of the old one is made, its
    // bound the highest key that stays.
    pub fn divide(self, file: &mut [u32], buffer: &mut [u32], entry: &mut [u32], row: &[u32])
        requires { Divides self file.old buffer.old row.now entry.old }
        ensures { (file.new ≡ halved_by self (part 0 self.shape.stride row.now) buffer.old file.old)
            × (part 0 (self.shape.width + 1) entry.new
            ≡ entry_by self (part 0 self.shape.stride row.now) buffer.old) }
    {
        let h = self.shape;
        let low = low_count(self.rows);
        self.share_rows(low, file, buffer, row);
        drum::write_block(self.desc, file, buffer, self.old);
        make_entry(
            entry,
            buffer,
            h.base + (low - 1) * h.stride,
            h.width,
            self.old,
        );
    }

    // Splits the full block old of the file, whose entry at the place becomes two, as for `enter`; and its own entry is made.
    pub fn divide_in(
        self,
        file: &mut [u32],
        buffer: &mut [u32],
        above: &mut [u32],
        entry: &[u32],
        b: usize,
    )
        requires { DividesIn self b file.old buffer.old entry.now above.old }
        ensures { (file.new
            ≡ halved_by self (part 0 self.shape.stride entry.now)
            (renamed self.shape self.place b (block_at self.desc file.old self.old))
            file.old)
            × (part 0 (self.shape.width + 1) above.new
            ≡ entry_by self (part 0 self.shape.stride entry.now)
            (renamed self.shape self.place b (block_at self.desc file.old self.old))) }
    {
        drum::read_block(self.desc, file, buffer, self.old);
        rename(self.shape, buffer, self.place, b);
        self.divide(file, buffer, above, entry);
    }
}
