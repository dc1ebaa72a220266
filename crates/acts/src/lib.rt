// What the calls do once they are planned: a flagged buffer written, blocks brought and reached, a record given, the master's free words set.
// What a call holds, the file and the buffer stay three parameters, here and in the deeds of the calls: as one struct of lent words each function must
// promise that it lends the same words still, and one that only reads the buffer that it stays (tried: docs/DESIGN-PASS.md).
#![tactic(auto)]

ghost use Rattle.std.specs.Prelude.{◌≡◌, true, false, ◌+◌, ◌≤◌, length, []};
ghost use Rattle.table.specs.Tables.{place, row};
ghost use Rattle.drum.specs.Params.{detail_shape};
ghost use Rattle.drum.specs.Blocks.{Fitting, Block, block_at, put_block, written, text_of};
ghost use Rattle.rules.specs.Lookup.{flush_moves, reached, stopping};
ghost use Rattle.rules.specs.Told.{gave, told};
ghost use Rattle.numbers.specs.Checked.{passed};
ghost use Rattle.rules.specs.Free.{with_free};
ghost use Rattle.rules.specs.Fits.{FlushFits, WayFits};
ghost use Rattle.acts.specs.Reach.{seen_by, come, came};

use drum::Description;
use rules::{Done, Held, Way};

// A block reached: the transfers made for it, and the current block and flag then.
#[derive(Clone, Copy)]
pub struct Arrived {
    pub transfers: usize,
    pub current: usize,
    pub flag: bool,
}

impl Arrived {
    // The call ends at the block reached, with its number, the flag it leaves, and whether position is the workspace's key then.
    pub fn done(self, number: u32, flag: bool, keyed: bool) -> Done
        ensures { result
            ≡ record
            { number = number; transfers = self.transfers; current = self.current; flag = flag; keyed = keyed } }
    {
        Done {
            number,
            transfers: self.transfers,
            current: self.current,
            flag,
            keyed,
        }
    }
}

// Writes the buffer over its block if it is flagged, and counts it.
pub fn flush(at: Held, file: &mut [u32], buffer: &[u32]) -> usize
    requires { Fitting at.desc file.old buffer.now × FlushFits (seen_by at file.old buffer.now) at.flag }
    ensures { (result ≡ length (flush_moves (seen_by at file.old buffer.now) at.flag))
        × (file.new ≡ written at.desc (flush_moves (seen_by at file.old buffer.now) at.flag) file.old) }
{
    if !at.flag {
        return 0;
    }
    drum::write_block(at.desc, file, buffer, at.current);
    1
}

// Lets the file have the current text of block b.
pub fn stage(at: Held, file: &mut [u32], buffer: &[u32], b: usize)
    requires { Fitting at.desc file.old buffer.now × Block at.desc b }
    ensures { file.new ≡ put_block at.desc file.old b (text_of (seen_by at file.old buffer.now) b) }
{
    if b == at.current {
        drum::write_block(at.desc, file, buffer, b);
    }
}

// Brings the current text of block b into the buffer.
pub fn load(at: Held, file: &[u32], buffer: &mut [u32], b: usize)
    requires { Fitting at.desc file.now buffer.old × Block at.desc b }
    ensures { buffer.new ≡ text_of (seen_by at file.now buffer.old) b }
{
    if b != at.current {
        drum::read_block(at.desc, file, buffer, b);
    }
}

// Writes the buffer if it is flagged, and brings the current text of block b into it. The index blocks that are read on the way are
// looked at where they lie, and the caller counts them.
pub fn bring(at: Held, file: &mut [u32], buffer: &mut [u32], b: usize) -> usize
    requires { Fitting at.desc file.old buffer.old
        × FlushFits (seen_by at file.old buffer.old) at.flag
        × Block at.desc b }
    ensures { (result ≡ length (flush_moves (seen_by at file.old buffer.old) at.flag))
        × (file.new ≡ written at.desc (flush_moves (seen_by at file.old buffer.old) at.flag) file.old)
        × (buffer.new ≡ text_of (seen_by at file.old buffer.old) b) }
{
    let wrote = flush(at, file, buffer);
    load(at, file, buffer, b);
    wrote
}

// Reaches the block at the end of the way.
pub fn reach(at: Held, file: &mut [u32], buffer: &mut [u32], way: Way) -> Arrived
    requires { Fitting at.desc file.old buffer.old × WayFits (seen_by at file.old buffer.old) at.flag way }
    ensures { came result file.new buffer.new ≡ come (reached (seen_by at file.old buffer.old) at.flag way) }
{
    match way {
        Way::Here => Arrived {
            transfers: 0,
            current: at.current,
            flag: at.flag,
        },
        Way::By(w) => {
            let b = w.detail;
            let wrote = bring(at, file, buffer, b);
            Arrived {
                transfers: wrote + 2,
                current: b,
                flag: false,
            }
        }
    }
}

// Follows the way without its block being brought: a flagged buffer is written, and the reads are counted.
pub fn follow(at: Held, file: &mut [u32], buffer: &[u32], way: Way) -> usize
    requires { Fitting at.desc file.old buffer.now × WayFits (seen_by at file.old buffer.now) at.flag way }
    ensures { (result ≡ length (reached (seen_by at file.old buffer.now) at.flag way).moves)
        × (file.new ≡ written at.desc (reached (seen_by at file.old buffer.now) at.flag way).moves file.old) }
{
    match way {
        Way::Here => 0,
        Way::By(_) => {
            let wrote = flush(at, file, buffer);
            wrote + 2
        }
    }
}

// Reaches the block, and the call stops there with its number.
pub fn stop(at: Held, file: &mut [u32], buffer: &mut [u32], way: Way, number: u32) -> Done
    requires { Fitting at.desc file.old buffer.old × WayFits (seen_by at file.old buffer.old) at.flag way }
    ensures { gave result file.new buffer.new []
        ≡ told (seen_by at file.old buffer.old) at.flag []
        (passed (stopping number [] (reached (seen_by at file.old buffer.old) at.flag way))) }
{
    let here = reach(at, file, buffer, way);
    here.done(number, here.flag, false)
}

// The buffer takes block b, which the file has, and the call ends there with its number.
pub fn land(
    p: Description,
    file: &[u32],
    buffer: &mut [u32],
    b: usize,
    number: u32,
    transfers: usize,
) -> Done
    requires { Fitting p file.now buffer.old × Block p b }
    ensures { (result ≡ record { number = number; transfers = transfers; current = b; flag = false; keyed = true })
        × (buffer.new ≡ block_at p file.now b) }
{
    drum::read_block(p, file, buffer, b);
    Done {
        number,
        transfers,
        current: b,
        flag: false,
        keyed: true,
    }
}

// Record i of the buffer to the workspace.
pub fn give(p: Description, buffer: &[u32], work: &mut [u32], i: usize)
    requires { (place (detail_shape p) i + p.wpr ≤ length buffer.now) × (length work.old ≡ p.wpr) }
    ensures { work.new ≡ row (detail_shape p) buffer.now i }
{
    let wpr = p.wpr;
    words::copy_words(work, 0, buffer, 1 + i * wpr, wpr);
}

// Words 1 and 2 of the master.
pub fn set_free(file: &mut [u32], head: usize, lowest: u32)
    requires { (3 ≤ length file.old) × (head ≤ 262143) }
    ensures { file.new ≡ with_free head lowest file.old }
{
    words::put_word(file, 1, head);
    file[2] = lowest;
}
