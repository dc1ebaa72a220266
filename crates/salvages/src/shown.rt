// What is printed of a salvage.
use said::{Outcome, Row};
use salvage::Salvaged;
use std::io;

// What the call came to: the number, the transfers, how many lines there are, the report, three words a line, and the words of the fresh file and of the
// buffer.
pub fn told(
    out: &impl Print,
    name: &str,
    done: Salvaged,
    report: &[u32],
    fresh: &[u32],
    buffer: &[u32],
) -> io::Result<()> {
    // By its fields: a From for this answer would make `said` need crate `salvage`.
    let outcome = Outcome {
        number: done.number,
        transfers: done.transfers,
    };
    println!(out; "{name}{outcome} {}", done.lines)?;
    println!(out; "  report{}", Row(report))?;
    println!(out; "  fresh{}", Row(fresh))?;
    println!(out; "  buffer{}", Row(buffer))
}
