// What is printed of a copy.
use said::{Row, told};
use searchfile::Answer;
use std::io;

// What a copy answered, and what it leaves in the marks and in the second file.
pub fn copied(out: &impl Print, answer: Answer, second: &[u32], marks: &[u8]) -> io::Result<()> {
    told(out, "", &[], answer)?;
    println!(out; "  marks{}", Row(marks))?;
    println!(out; "  second{}", Row(second))
}
