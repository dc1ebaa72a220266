// What is printed of a reading call.
use reading::{Answer, ReadingSession};
use said::{Outcome, Row};
use std::io;

// What a reading call answered, and what it left: the workspace, the current block, the position (0 none); the session to go on with.
pub fn told(
    out: &impl Print,
    name: &str,
    asked: &[u32],
    answer: Answer,
    work: &[u32],
) -> io::Result<ReadingSession> {
    let s = answer.session;
    print!(out;
        "{name}{}{} work{}",
        Row(asked),
        Outcome::from(answer),
        Row(work)
    )?;
    let key = s.position[0];
    println!(out; " current {} position {key}", s.current)?;
    Ok(s)
}

// Whether a file opens: the number, and the marks.
pub fn opened(out: &impl Print, answer: Answer, marks: &[u8; 6]) -> io::Result<ReadingSession> {
    println!(out; "READING OPEN{} marks{}", Outcome::from(answer), Row(marks))?;
    Ok(answer.session)
}
