// A master of 6 words becomes one of 10: its length is made even, so one section more moves the blocks by 4 words, not by K+1.
use super::shown::copied;
use drum::Description;
use said::told;
use searchfile::Session;
use std::io;

fn copy(out: &impl Print, s: Session, file: &[u32]) -> io::Result<()> {
    let mut second = [9u32; 34];
    let mut marks = [9u8; 3];
    let answer = s.copy_file(file, &mut second, 2, &mut marks);
    print!(out; "COPY 2")?;
    copied(out, answer, &second, &marks)
}

fn description() -> Description {
    Description::new()
        .with_wpb(8)
        .with_wpr(2)
        .with_k(2)
        .with_control(1)
        .with_n(3)
}

// Made and opened here, as in each such program: one function in `said` would have to promise again what `create` and `open_file` promise.
pub fn run(out: &impl Print) -> io::Result<()> {
    let mut file = [0u32; 30];
    let mut buffer = [0u32; 8];
    let mut marks = [9u8; 3];
    let work = [3u32, 4];
    let begun = told(
        out,
        "CREATE",
        &[],
        Session::new(description()).create(&mut file),
    )?;
    let opened = told(
        out,
        "OPEN",
        &[],
        begun.open_file(&file, &buffer, &mut marks),
    )?;
    let stored = told(
        out,
        "NSERT 3 4",
        &[],
        opened.nsert(&mut file, &mut buffer, &work),
    )?;
    let s = told(out, "CLOSE", &[], stored.close(&mut file, &buffer))?;
    copy(out, s, &file)
}
