// What is printed: a line of a list, and what it leaves.
use super::deeds::{Deed, Lent, Line};
use said::{Outcome, Row};
use searchfile::{Answer, Session};
use std::io;

fn print_name(out: &impl Print, line: Line) -> io::Result<()> {
    match line.deed {
        Deed::Short => print!(out; "SEEK, short workspace"),
        Deed::FileWord | Deed::BufferWord | Deed::Current | Deed::Position => {
            print!(out; "made up:")
        }
        Deed::Unknown => {
            print!(out; "no such line: ")?;
            out.write_all(line.name)
        }
        _ => out.write_all(line.name),
    }
}

// What a line does, and its words.
pub fn print_line(out: &impl Print, line: Line) -> io::Result<()> {
    print_name(out, line)?;
    println!(out; "{}", Row(line.numbers))
}

// The block that VIEW lends.
pub fn print_lent(out: &impl Print, words: &[u32]) -> io::Result<()> {
    println!(out; "  lent{}", Row(words))
}

// What a turn leaves beside the file: the session's block form, and the marks.
pub fn print_turned(out: &impl Print, s: Session, marks: &[u8]) -> io::Result<()> {
    println!(out; "  form {} marks{}", s.desc.form, Row(marks))
}

fn print_session(out: &impl Print, s: Session) -> io::Result<()> {
    print!(out; "  open {} current {}", u8::from(s.opened), s.current)?;
    print!(out; " flag {}", u8::from(s.flag))?;
    println!(out; " position {} {}", u8::from(s.placed), s.position[0])
}

// An answer, and the words as they are then; the session to go on with.
pub fn told(out: &impl Print, answer: Answer, lent: &Lent) -> io::Result<Session> {
    let s = answer.session;
    print!(out; "{}", Outcome::from(answer))?;
    print_session(out, s)?;
    println!(out; "  workspace{}", Row(lent.work))?;
    println!(out; "  buffer{}", Row(lent.buffer))?;
    println!(out; "  file{}", Row(lent.file))?;
    Ok(s)
}
