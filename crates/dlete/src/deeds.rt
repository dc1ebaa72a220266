// What DLETE does once it is planned.
// What a call holds, the file and the buffer stay three parameters (why: crate acts).
ghost use Rattle.std.specs.Prelude.{◌≡◌, true, false, [], length};
ghost use Rattle.numbers.specs.Numbers.{done};
ghost use Rattle.numbers.specs.Checked.{passed};
ghost use Rattle.words.specs.Words.{zeros};
ghost use Rattle.table.specs.Tables.{removed};
ghost use Rattle.drum.specs.Params.{detail_shape};
ghost use Rattle.drum.specs.Blocks.{Fitting, block_at, put_block};
ghost use Rattle.rules.specs.Lookup.{reached, storing};
ghost use Rattle.rules.specs.Dlete.{entry_gone, empty_all, both_all, empty_file, both_file, delete_done};
ghost use Rattle.rules.specs.Told.{gave, told};
ghost use Rattle.acts.specs.Reach.{seen_by};
ghost use Rattle.dlete.specs.Fits.{HasEntry, EntryIn, RemoveFits, EmptyFits, OneFits, DeleteFits};
ghost use Rattle.dlete.specs.Freed.{handed, freed};

use drum::Description;
use numbers::{DONE, NOT_FOUND};
use rules::{Delete, Done, Held, Path, Way};

// If entry j is the last of an index block's text, the one before takes its bound.
fn hand_bound(p: Description, t: &mut [u32], j: usize)
    requires { HasEntry p t.old j }
    ensures { t.new ≡ handed p j t.old }
{
    if j + 1 == drum::kinds::entries_in(p, t) {
        let k = p.k;
        words::move_words(t, 1 + j * (k + 1), 1 + (j - 1) * (k + 1), k);
    }
}

// Takes entry j out of an index block's text.
fn entry_gone(p: Description, t: &mut [u32], j: usize)
    requires { HasEntry p t.old j }
    ensures { t.new ≡ entry_gone p j t.old }
{
    hand_bound(p, t, j);
    table::remove_row(p.index_shape(), t, j);
}

// The same in index block b of the file, by way of the buffer.
fn gone_in(p: Description, file: &mut [u32], buffer: &mut [u32], b: usize, j: usize)
    requires { EntryIn p file.old b j × (length buffer.old ≡ p.wpb) }
    ensures { file.new ≡ put_block p file.old b (entry_gone p j (block_at p file.old b)) }
{
    drum::read_block(p, file, buffer, b);
    entry_gone(p, buffer, j);
    drum::write_block(p, file, buffer, b);
}

// The stores up to the index block: a flagged buffer, the index block's current text, which may stand in the buffer alone, and the emptied
// block with its link.
// Way, path and link stay three, here and below, with no struct as in nsert: the definitions take them one by one, from the variants of `Delete`.
fn free_detail(at: Held, file: &mut [u32], buffer: &[u32], way: Way, w: Path, link: usize) -> usize
    requires { Fitting at.desc file.old buffer.now × EmptyFits (seen_by at file.old buffer.now) at.flag way w link }
    ensures { (result ≡ length (reached (seen_by at file.old buffer.now) at.flag way).moves)
        × (file.new ≡ freed (seen_by at file.old buffer.now) at.flag way w link) }
{
    let moved = acts::follow(at, file, buffer, way);
    acts::stage(at, file, buffer, w.index);
    drum::inside::free_block(at.desc, file, w.detail, link);
    moved
}

// The block is left empty, its index block not: the block is made the chain's head, and its entry goes.
fn empty_one(
    at: Held,
    file: &mut [u32],
    buffer: &mut [u32],
    way: Way,
    w: Path,
    head: usize,
) -> usize
    requires { Fitting at.desc file.old buffer.old × OneFits (seen_by at file.old buffer.old) at.flag way w head }
    ensures { (result ≡ length (empty_all (seen_by at file.old buffer.old) at.flag way w head))
        × (file.new ≡ empty_file (seen_by at file.old buffer.old) at.flag way w head) }
{
    let moved = free_detail(at, file, buffer, way, w, head);
    words::put_word(file, 1, w.detail);
    gone_in(at.desc, file, buffer, w.index, w.entry);
    moved + 3
}

// The block and its index block are left empty: the index block is made the chain's head after the block, and its master entry goes.
fn empty_both(at: Held, file: &mut [u32], buffer: &[u32], way: Way, w: Path, head: usize) -> usize
    requires { Fitting at.desc file.old buffer.now × EmptyFits (seen_by at file.old buffer.now) at.flag way w head }
    ensures { (result ≡ length (both_all (seen_by at file.old buffer.now) at.flag way w head))
        × (file.new ≡ both_file (seen_by at file.old buffer.now) at.flag way w head) }
{
    let p = at.desc;
    let moved = free_detail(at, file, buffer, way, w, head);
    words::put_word(file, 1, w.index);
    drum::inside::free_block(p, file, w.index, w.detail);
    table::remove_row(p.master_shape(), file, w.section);
    moved + 3
}

// What is left when the block was emptied: "buffer zeroed, current 0, flag off".
fn none_held(buffer: &mut [u32], transfers: usize) -> Done
    ensures { (result ≡ record { number = done; transfers = transfers; current = 0; flag = false; keyed = true })
        × (buffer.new ≡ zeros (length buffer.old)) }
{
    buffer.fill(0);
    Done {
        number: DONE,
        transfers,
        current: 0,
        flag: false,
        keyed: true,
    }
}

// The record is taken out of its block, which is not left empty.
fn remove_record(at: Held, file: &mut [u32], buffer: &mut [u32], way: Way, i: usize) -> Done
    requires { Fitting at.desc file.old buffer.old × RemoveFits (seen_by at file.old buffer.old) at.flag way i }
    ensures { gave result file.new buffer.new []
        ≡ told (seen_by at file.old buffer.old) at.flag []
        (passed (storing done [] (reached (seen_by at file.old buffer.old) at.flag way)
        (removed (detail_shape at.desc) i (reached (seen_by at file.old buffer.old) at.flag way).buffer))) }
{
    let p = at.desc;
    let here = acts::reach(at, file, buffer, way);
    table::remove_row(p.detail_shape(), buffer, i);
    here.done(DONE, true, true)
}

// Does what was planned.
pub fn do_dlete(deed: Delete, at: Held, file: &mut [u32], buffer: &mut [u32]) -> Done
    requires { Fitting at.desc file.old buffer.old × DeleteFits (seen_by at file.old buffer.old) at.flag deed }
    ensures { gave result file.new buffer.new []
        ≡ told (seen_by at file.old buffer.old) at.flag []
        (delete_done (seen_by at file.old buffer.old) at.flag [] deed) }
{
    match deed {
        Delete::Stop(w) => acts::stop(at, file, buffer, Way::By(w), NOT_FOUND),
        Delete::Remove(way, i) => remove_record(at, file, buffer, way, i),
        Delete::Empty(way, w, head) => {
            let transfers = empty_one(at, file, buffer, way, w, head);
            none_held(buffer, transfers)
        }
        Delete::Both(way, w, head) => {
            let transfers = empty_both(at, file, buffer, way, w, head);
            none_held(buffer, transfers)
        }
    }
}
