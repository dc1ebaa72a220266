// What is printed of a tray, and of the words it leaves.
use said::{Outcome, Row};
use searchfile::Session;
use std::io;
use tray::Trayed;

// A tray's words, and what it came to: stored, the number, the transfers; the session to go on with.
pub fn told_tray(out: &impl Print, words: &[u32], trayed: Trayed) -> io::Result<Session> {
    // By its fields: a From for this answer would make `said` need crate `tray`.
    let outcome = Outcome {
        number: trayed.number,
        transfers: trayed.transfers,
    };
    println!(out; "TRAY{}: {}{outcome}", Row(words), trayed.stored)?;
    Ok(trayed.session)
}

// The file, the buffer, and of the session the current block, the flag and the position.
pub fn show(out: &impl Print, s: Session, file: &[u32], buffer: &[u32]) -> io::Result<()> {
    println!(out; "  file{}", Row(file))?;
    println!(out; "  buffer{}", Row(buffer))?;
    let flag = u8::from(s.flag);
    let key = s.position[0];
    println!(out; "  current {} flag {flag} position {key}", s.current)
}
