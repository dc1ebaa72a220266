// The walk through the copy: each block passed over or its records put in, and a line for each block and record that is not carried.
// What goes on, the fresh file, the buffer and the report stay four parameters: as one struct of lent words each step must promise that it lends the
// same words still (tried in crate acts: docs/DESIGN-PASS.md).
ghost use Rattle.std.specs.Prelude.{◌≡◌, [], ◌∷◌, ◌+◌, ◌*◌, ◌≤◌, length};
ghost use Rattle.words.specs.Words.{put};
ghost use Rattle.drum.specs.Params.{D};
ghost use Rattle.drum.specs.Blocks.{block_at};
ghost use Rattle.salvage.specs.Met.{found, places, records_in, met_in, met};
ghost use Rattle.salvage.specs.Reasons.{word_of};
ghost use Rattle.salvage.specs.Salvage.{why_not, settled, step, run};
ghost use Rattle.salvage.specs.Promise.{walking, tells, inserted, Spare, Ready, Taken, Copied};

use super::texts::Reason;
use super::{Going, texts};
use numbers::{NOT_FOUND, is_accepted};

// Where a line points: a block and a place in it, 0 for the block itself. Both are words of the report.
#[derive(Clone, Copy)]
pub struct Place {
    pub block: usize,
    pub place: usize,
    pub ghost small: { (block ≤ 262143) × (place ≤ 262143) },
}

// What an NSERT answered, and what goes on after it.
#[derive(Clone, Copy)]
pub struct Tried {
    pub number: u32,
    pub going: Going,
}

// Writes a line behind the n lines before it.
fn put_line(report: &mut [u32], n: usize, at: Place, reason: Reason)
    requires { 3 * (n + 1) ≤ length report.old }
    ensures { report.new ≡ put report.old (3 * n) (at.block ∷ at.place ∷ word_of reason ∷ []) }
{
    let a = 3 * n;
    words::put_word(report, a, at.block);
    words::put_word(report, a + 1, at.place);
    words::put_word(report, a + 2, usize::from(reason));
}

// The same, and counts it.
fn add_line(going: Going, report: &mut [u32], at: Place, reason: Reason) -> Going
    requires { 3 * (going.lines + 1) ≤ length report.old }
    ensures { (result ≡ record { session = going.session; lines = going.lines + 1; transfers = going.transfers })
        × (report.new ≡ put report.old (3 * going.lines) (at.block ∷ at.place ∷ word_of reason ∷ [])) }
{
    put_line(report, going.lines, at, reason);
    Going {
        lines: going.lines + 1,
        ..going
    }
}

// Why a record was not carried, by NSERT's number.
fn why_not(number: u32) -> Reason
    ensures { word_of result ≡ why_not number }
{
    if number == NOT_FOUND {
        Reason::SecondCopy
    } else {
        Reason::LackedRoom
    }
}

// NSERT of a record; its transfers are counted.
fn insert(going: Going, file: &mut [u32], buffer: &mut [u32], row: &[u32]) -> Tried
    requires { going.transfers + 16 ≤ 1099511627776 }
    ensures { tells result.number (walking result.going file.new buffer.new [])
        ≡ inserted row.now (walking going file.old buffer.old []) }
{
    let answer = going.session.nsert(file, buffer, row);
    Tried {
        number: answer.number,
        going: Going {
            session: answer.session,
            transfers: going.transfers + answer.transfers,
            ..going
        },
    }
}

// A line for a record that NSERT did not store.
fn settle(tried: Tried, report: &mut [u32], at: Place) -> Going
    requires { 3 * (tried.going.lines + 1) ≤ length report.old }
    ensures { walking result [] [] report.new
        ≡ settled tried.number at.block at.place (walking tried.going [] [] report.old) }
{
    if is_accepted(tried.number) {
        return tried.going;
    }
    add_line(tried.going, report, at, why_not(tried.number))
}

// A record that is taken: NSERT of it, unless its key is ONES.
fn one_record(
    going: Going,
    file: &mut [u32],
    buffer: &mut [u32],
    report: &mut [u32],
    row: &[u32],
    at: Place,
) -> Going
    requires { Spare going 1 (length report.old) × (going.session.desc.k ≤ length row.now) }
    ensures { walking result file.new buffer.new report.new
        ≡ step (walking going file.old buffer.old report.old) (found at.block at.place row.now) }
{
    if words::all_are(row, 0, going.session.desc.k, 262143) {
        return going;
    }
    let tried = insert(going, file, buffer, row);
    settle(tried, report, at)
}

// The records of a block that is not passed over. By number, not by `chunks_exact`: they fill a part of the text, and a line names their places.
fn take_records(
    going: Going,
    text: &[u32],
    file: &mut [u32],
    buffer: &mut [u32],
    report: &mut [u32],
    b: usize,
) -> Going
    requires { Taken going text.now b (length report.old) }
    ensures { walking result file.new buffer.new report.new
        ≡ run (walking going file.old buffer.old report.old) (places b 1 (records_in going.session.desc text.now)) }
{
    let wpr = going.session.desc.wpr;
    let mut next = going;
    for i in 0..texts::count_in(text) {
        let at = 1 + i * wpr;
        let here = Place {
            block: b,
            place: i + 1,
        };
        next = one_record(next, file, buffer, report, &text[at..at + wpr], here);
    }
    next
}

// Block b with this text: passed over, or its records taken.
fn one_block(
    going: Going,
    text: &[u32],
    file: &mut [u32],
    buffer: &mut [u32],
    report: &mut [u32],
    b: usize,
) -> Going
    requires { Ready going text.now b (length report.old) }
    ensures { walking result file.new buffer.new report.new
        ≡ run (walking going file.old buffer.old report.old) (met_in going.session.desc b text.now) }
{
    match texts::missed(going.session.desc, text) {
        Some(reason) => add_line(going, report, Place { block: b, place: 0 }, reason),
        None => take_records(going, text, file, buffer, report, b),
    }
}

// The same, where it lies in the copy.
fn block_of(
    going: Going,
    copy: &[u32],
    file: &mut [u32],
    buffer: &mut [u32],
    report: &mut [u32],
    b: usize,
) -> Going
    requires { Copied going copy.now
        × (1 ≤ b)
        × (b ≤ going.session.desc.n)
        × Spare going (1 + D going.session.desc) (length report.old) }
    ensures { walking result file.new buffer.new report.new
        ≡ run (walking going file.old buffer.old report.old) (met_in going.session.desc b (block_at going.session.desc copy.now b)) }
{
    let text = layout::block_of(going.session.desc, copy, b);
    one_block(going, text, file, buffer, report, b)
}

// All blocks, in number order.
pub fn every_block(
    going: Going,
    copy: &[u32],
    file: &mut [u32],
    buffer: &mut [u32],
    report: &mut [u32],
) -> Going
    requires { Copied going copy.now
        × Spare going (going.session.desc.n * (1 + D going.session.desc)) (length report.old) }
    ensures { walking result file.new buffer.new report.new
        ≡ run (walking going file.old buffer.old report.old) (met going.session.desc copy.now) }
{
    let n = going.session.desc.n;
    let mut next = going;
    for b in 1..n + 1 {
        next = block_of(next, copy, file, buffer, report, b);
    }
    next
}
