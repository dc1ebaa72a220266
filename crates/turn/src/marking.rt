// The marks while the file is turned: OPEN's, but 3 for an index block.
ghost use Rattle.std.specs.Prelude.{◌≡◌, ◌≤◌, ◌<◌};
ghost use Rattle.table.specs.Tables.{block_in};
ghost use Rattle.drum.specs.Params.{master_shape};
ghost use Rattle.drum.specs.Blocks.{sections};
ghost use Rattle.layout.specs.Turned.{index_marked, index_unmarked};
ghost use Rattle.layout.specs.Inspected.{Fit};
ghost use Rattle.turn.specs.Fits.{TurnFits, open_mark};

use drum::Description;

// OPEN's marks of a block that is reached and of a chained one, and the mark of an index block while the file is turned: words and no enum, as the marks are
// the caller's bytes (the C interface).
pub const REACHED: u8 = 1;

pub const CHAINED: u8 = 2;

pub const INDEX: u8 = 3;

// The block that entry i of the master names.
fn named(p: Description, f: &[u32], i: usize) -> usize
    requires { Fit p f.now × (sections f.now ≤ p.control) × (i < sections f.now) }
    ensures { result ≡ block_in (master_shape p) f.now i }
{
    words::word_at(f, 3 + i * (p.k + 1) + p.k)
}

// Gives each index block its mark.
pub fn mark_indexes(p: Description, f: &[u32], marks: &mut [u8])
    requires { TurnFits p f.now marks.old }
    ensures { marks.new ≡ index_marked p f.now (sections f.now) marks.old }
{
    let n = words::word_at(f, 0);
    for i in 0..n {
        let b = named(p, f, i);
        marks[b - 1] = INDEX;
    }
}

// OPEN's mark for this one.
fn open_mark(m: u8) -> u8
    ensures { result ≡ open_mark m }
{
    if m == INDEX { REACHED } else { m }
}

// Gives each block OPEN's mark again.
pub fn restore(marks: &mut [u8])
    ensures { marks.new ≡ index_unmarked marks.old }
{
    for m in marks.iter_mut() {
        *m = open_mark(*m);
    }
}
