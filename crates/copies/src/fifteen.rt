// The fifteen calls of the printed session; their file copied to CONTROL 5, then copies into the same words that are refused.
// File and buffer stay two parameters, the calls functions of each program: a struct of lent words, as in `plays`, is longer than what it spares here.
use super::shown::copied;
use drum::Description;
use said::told;
use searchfile::Session;
use std::io;

fn nsert(
    out: &impl Print,
    s: Session,
    file: &mut [u32; 40],
    buffer: &mut [u32; 8],
    record: [u32; 3],
) -> io::Result<Session> {
    told(out, "NSERT", &[], s.nsert(file, buffer, &record))
}

fn dlete(
    out: &impl Print,
    s: Session,
    file: &mut [u32; 40],
    buffer: &mut [u32; 8],
    key: u32,
) -> io::Result<Session> {
    let work = [key, 0, 0];
    told(out, "DLETE", &[], s.dlete(file, buffer, &work))
}

fn xtend(
    out: &impl Print,
    s: Session,
    file: &mut [u32; 40],
    buffer: &mut [u32; 8],
    record: [u32; 3],
) -> io::Result<Session> {
    told(out, "XTEND", &[], s.xtend(file, buffer, &record))
}

// The calls that store.
fn changed(
    out: &impl Print,
    start: Session,
    file: &mut [u32; 40],
    buffer: &mut [u32; 8],
) -> io::Result<Session> {
    let mut s = start;
    for record in [[10, 1, 2], [20, 3, 4], [5, 7, 7], [15, 6, 6], [12, 0, 0]] {
        s = nsert(out, s, file, buffer, record)?;
    }
    for key in [5, 10] {
        s = dlete(out, s, file, buffer, key)?;
    }
    s = xtend(out, s, file, buffer, [30, 8, 9])?;
    xtend(out, s, file, buffer, [25, 0, 0])
}

// The calls that read.
fn read(
    out: &impl Print,
    start: Session,
    file: &mut [u32; 40],
    buffer: &mut [u32; 8],
) -> io::Result<Session> {
    let mut work = [20u32, 0, 0];
    let sought = told(out, "SEEK", &[], start.seek(file, buffer, &mut work))?;
    let next = told(out, "ADV", &[], sought.adv(file, buffer, &mut work))?;
    told(out, "ADV", &[], next.adv(file, buffer, &mut work))
}

fn close(
    out: &impl Print,
    s: Session,
    file: &mut [u32; 40],
    buffer: &[u32; 8],
) -> io::Result<Session> {
    told(out, "CLOSE", &[], s.close(file, buffer))
}

// A copy; then a CONTROL that is too low, one for which the second file is too long, and one that is too high.
fn copies(out: &impl Print, s: Session, file: &[u32; 40]) -> io::Result<()> {
    let mut second = [9u32; 46];
    let mut marks = [9u8; 4];
    for control in [5, 0, 1, 16384] {
        let answer = s.copy_file(file, &mut second, control, &mut marks);
        print!(out; "COPY {control}")?;
        copied(out, answer, &second, &marks)?;
    }
    Ok(())
}

fn description() -> Description {
    Description::new()
        .with_wpb(8)
        .with_wpr(3)
        .with_k(1)
        .with_control(2)
        .with_n(4)
}

// Made and opened here, as in each such program: one function in `said` would have to promise again what `create` and `open_file` promise.
pub fn run(out: &impl Print) -> io::Result<()> {
    let mut file = [0u32; 40];
    let mut buffer = [0u32; 8];
    let mut marks = [9u8; 4];
    let begun = told(
        out,
        "CREATE",
        &[],
        Session::new(description()).create(&mut file),
    )?;
    let opened = told(
        out,
        "OPEN",
        &[],
        begun.open_file(&file, &buffer, &mut marks),
    )?;
    let stored = changed(out, opened, &mut file, &mut buffer)?;
    let found = read(out, stored, &mut file, &mut buffer)?;
    let s = close(out, found, &mut file, &buffer)?;
    copies(out, s, &file)
}
