// Salvage: the records of a broken copy put into a fresh file, and a report of what was not. The copy's blocks say what they are, as in the second block form;
// its master and its index blocks are not believed. The copy is only read; each record is lent to NSERT where it lies.
#![tactic(auto)]

mod texts;
mod walk;

ghost use Rattle.std.specs.Prelude.{◌≡◌, true, [], ◌+◌, ◌*◌, ◌≤◌, length};
ghost use Rattle.drum.specs.Params.{D, good_params, file_size};
ghost use Rattle.salvage.specs.Met.{met};
ghost use Rattle.salvage.specs.Salvage.{run, begun, ended, roomy, salvage as salvaged};
ghost use Rattle.salvage.specs.Promise.{walking, answered_with, Spare, Copied, Roomy};

use drum::Description;
use numbers::{DONE, WRONG_SIZE};
use searchfile::Session;
use walk::every_block;

// What the walk hands on: the session on the fresh file, the lines written and the transfers made.
#[derive(Clone, Copy)]
pub struct Going {
    pub session: Session,
    pub lines: usize,
    pub transfers: usize,
}

// What the call answers: its number, the transfers of its NSERTs and of its CLOSE, and the lines of the report.
#[derive(Clone, Copy)]
pub struct Salvaged {
    pub number: u32,
    pub transfers: usize,
    pub lines: usize,
}

// CREATE, and what goes on after an OPEN of what it wrote.
fn begin(desc: Description, fresh: &mut [u32]) -> Going
    requires { (good_params desc ≡ true) × (length fresh.old ≡ file_size desc) }
    ensures { walking result fresh.new [] [] ≡ begun desc [] [] }
{
    layout::lay_out(desc, fresh);
    let mut session = Session::new(desc);
    session.opened = true;
    Going {
        session,
        lines: 0,
        transfers: 0,
    }
}

// Whether the parameters are good, the three areas have their lengths, and the report has room for all lines.
fn is_roomy(p: Description, copy: usize, fresh: usize, buffer: usize, report: usize) -> bool
    ensures { result ≡ roomy p copy fresh buffer report }
{
    p.is_sized(fresh, buffer) && copy == fresh && 3 * (p.n * (1 + p.d())) <= report
}

// CLOSE, and what the call answers.
fn finish(going: Going, fresh: &mut [u32], buffer: &[u32]) -> Salvaged
    requires { going.transfers ≤ 1099511627776 }
    ensures { answered_with result fresh.new buffer.now [] ≡ ended (walking going fresh.old buffer.now []) }
{
    let answer = going.session.close(fresh, buffer);
    Salvaged {
        number: DONE,
        transfers: going.transfers + answer.transfers,
        lines: going.lines,
    }
}

// The walk, and the CLOSE after it.
fn carry_on(
    first: Going,
    copy: &[u32],
    fresh: &mut [u32],
    buffer: &mut [u32],
    report: &mut [u32],
) -> Salvaged
    requires { Copied first copy.now
        × Spare first (first.session.desc.n * (1 + D first.session.desc)) (length report.old) }
    ensures { answered_with result fresh.new buffer.new report.new
        ≡ ended (run (walking first fresh.old buffer.old report.old) (met first.session.desc copy.now)) }
{
    let last = every_block(first, copy, fresh, buffer, report);
    finish(last, fresh, buffer)
}

// The fresh file and the report.
fn build(
    desc: Description,
    copy: &[u32],
    fresh: &mut [u32],
    buffer: &mut [u32],
    report: &mut [u32],
) -> Salvaged
    requires { Roomy desc (length copy.now) (length fresh.old) (length buffer.old) (length report.old) }
    ensures { answered_with result fresh.new buffer.new report.new
        ≡ ended (run (begun desc buffer.old report.old) (met desc copy.now)) }
{
    let first = begin(desc, fresh);
    carry_on(first, copy, fresh, buffer, report)
}

// Builds a fresh file of the records in the copy, and reports every block passed over and every record not carried.
pub fn salvage(
    desc: Description,
    copy: &[u32],
    fresh: &mut [u32],
    buffer: &mut [u32],
    report: &mut [u32],
) -> Salvaged
    ensures { answered_with result fresh.new buffer.new report.new
        ≡ salvaged desc copy.now fresh.old buffer.old report.old }
{
    if !is_roomy(desc, copy.len(), fresh.len(), buffer.len(), report.len()) {
        return Salvaged {
            number: WRONG_SIZE,
            transfers: 0,
            lines: 0,
        };
    }
    build(desc, copy, fresh, buffer, report)
}
