// A finished list read on a handset: the list is made by XTEND, read by the reading set's calls, and other files are offered to it.
// File and buffer stay two parameters, the calls functions of each program: a struct of lent words, as in `plays`, is longer than what it spares here.
#![tactic(auto)]

mod shown;

use drum::Description;
use reading::ReadingSession;
use said::{Row, told as made};
use searchfile::Session;
use shown::{opened, told};
use std::io;

fn description() -> Description {
    Description::new()
        .with_wpb(8)
        .with_wpr(3)
        .with_k(1)
        .with_control(1)
        .with_n(6)
}

// A new file, open.
// Made and opened here, as in each such program: one function in `said` would have to promise again what `create` and `open_file` promise.
fn begun(out: &impl Print, file: &mut [u32; 54], buffer: &[u32; 8]) -> io::Result<Session> {
    let mut marks = [0u8; 6];
    let s = made(out, "CREATE", &[], Session::new(description()).create(file))?;
    made(out, "OPEN", &[], s.open_file(file, buffer, &mut marks))
}

fn xtend(
    out: &impl Print,
    s: Session,
    file: &mut [u32; 54],
    buffer: &mut [u32; 8],
    key: u32,
    data: u32,
) -> io::Result<Session> {
    let work = [key, data, data];
    made(out, "XTEND", &[key], s.xtend(file, buffer, &work))
}

fn nsert(
    out: &impl Print,
    s: Session,
    file: &mut [u32; 54],
    buffer: &mut [u32; 8],
    key: u32,
) -> io::Result<Session> {
    let work = [key, 0, 0];
    made(out, "NSERT", &[key], s.nsert(file, buffer, &work))
}

fn dlete(
    out: &impl Print,
    s: Session,
    file: &mut [u32; 54],
    buffer: &mut [u32; 8],
    key: u32,
) -> io::Result<Session> {
    let work = [key, 0, 0];
    made(out, "DLETE", &[key], s.dlete(file, buffer, &work))
}

fn closed(out: &impl Print, s: Session, file: &mut [u32; 54], buffer: &[u32; 8]) -> io::Result<()> {
    made(out, "CLOSE", &[], s.close(file, buffer))?;
    Ok(())
}

// The list: five records fill three blocks, and a sixth has no room.
fn extended(out: &impl Print, file: &mut [u32; 54]) -> io::Result<()> {
    let mut buffer = [0u32; 8];
    let mut s = begun(out, file, &buffer)?;
    for (key, data) in [(10, 1), (20, 2), (30, 3), (40, 4), (50, 5), (60, 6)] {
        s = xtend(out, s, file, &mut buffer, key, data)?;
    }
    closed(out, s, file, &buffer)?;
    println!(out; "  file{}", Row(file))
}

fn seek(
    out: &impl Print,
    s: ReadingSession,
    file: &[u32; 54],
    buffer: &mut [u32; 8],
    work: &mut [u32; 3],
    key: u32,
) -> io::Result<ReadingSession> {
    work[0] = key;
    let answer = s.seek(file, buffer, work);
    told(out, "SEEK", &[key], answer, work)
}

fn adv(
    out: &impl Print,
    s: ReadingSession,
    file: &[u32; 54],
    buffer: &mut [u32; 8],
    work: &mut [u32; 3],
) -> io::Result<ReadingSession> {
    let answer = s.adv(file, buffer, work);
    told(out, "ADV", &[], answer, work)
}

fn open(
    out: &impl Print,
    s: ReadingSession,
    file: &[u32; 54],
    buffer: &[u32; 8],
    marks: &mut [u8; 6],
) -> io::Result<ReadingSession> {
    let answer = s.open(file, buffer, marks);
    opened(out, answer, marks)
}

// The list read through.
fn read(
    out: &impl Print,
    start: ReadingSession,
    file: &[u32; 54],
    buffer: &mut [u32; 8],
    work: &mut [u32; 3],
) -> io::Result<ReadingSession> {
    let mut s = seek(out, start, file, buffer, work, 20)?;
    for _ in 0..5 {
        s = adv(out, s, file, buffer, work)?;
    }
    s = seek(out, s, file, buffer, work, 10)?;
    seek(out, s, file, buffer, work, 11)
}

// The altering calls are refused, open and closed.
fn refused(
    out: &impl Print,
    start: ReadingSession,
    file: &[u32; 54],
    buffer: &[u32; 8],
    work: &[u32; 3],
) -> io::Result<()> {
    let mut s = told(
        out,
        "NSERT",
        &[25],
        start.nsert(file, buffer, &[25, 0, 0]),
        work,
    )?;
    s = told(
        out,
        "DLETE",
        &[262143],
        s.dlete(file, buffer, &[262143, 0, 0]),
        work,
    )?;
    s = told(out, "CLOSE", &[], s.close(file, buffer), work)?;
    told(
        out,
        "XTEND",
        &[70],
        s.xtend(file, buffer, &[70, 0, 0]),
        work,
    )?;
    Ok(())
}

fn reader(out: &impl Print, file: &[u32; 54]) -> io::Result<()> {
    let mut buffer = [0u32; 8];
    let mut work = [0u32; 3];
    let mut marks = [9u8; 6];
    let mut s = adv(
        out,
        ReadingSession::new(description()),
        file,
        &mut buffer,
        &mut work,
    )?;
    s = open(out, s, file, &buffer, &mut marks)?;
    s = open(out, s, file, &buffer, &mut marks)?;
    s = read(out, s, file, &mut buffer, &mut work)?;
    refused(out, s, file, &buffer, &work)
}

// A file is closed and offered to the reading set.
fn offered(
    out: &impl Print,
    s: Session,
    file: &mut [u32; 54],
    buffer: &[u32; 8],
) -> io::Result<()> {
    let mut marks = [9u8; 6];
    made(out, "CLOSE", &[], s.close(file, buffer))?;
    opened(
        out,
        ReadingSession::new(description()).open(file, buffer, &mut marks),
        &marks,
    )?;
    Ok(())
}

// Blocks out of order; block 2 not full.
fn out_of_order(out: &impl Print) -> io::Result<()> {
    let mut file = [0u32; 54];
    let mut buffer = [0u32; 8];
    let mut s = begun(out, &mut file, &buffer)?;
    for key in [10, 20, 15] {
        s = nsert(out, s, &mut file, &mut buffer, key)?;
    }
    offered(out, s, &mut file, &buffer)
}

// Three records loaded, the first key taken out; then perhaps a second, with one more record loaded.
fn taken_out(out: &impl Print, first: u32, more: Option<(u32, u32)>) -> io::Result<()> {
    let mut file = [0u32; 54];
    let mut buffer = [0u32; 8];
    let mut s = begun(out, &mut file, &buffer)?;
    for key in [10, 20, 30] {
        s = xtend(out, s, &mut file, &mut buffer, key, 0)?;
    }
    s = dlete(out, s, &mut file, &mut buffer, first)?;
    if let Some((second, then)) = more {
        s = dlete(out, s, &mut file, &mut buffer, second)?;
        s = xtend(out, s, &mut file, &mut buffer, then, 0)?;
    }
    offered(out, s, &mut file, &buffer)
}

// NSERT in ascending order makes such a file too, here.
fn in_order(out: &impl Print) -> io::Result<()> {
    let mut file = [0u32; 54];
    let mut buffer = [0u32; 8];
    let mut s = begun(out, &mut file, &buffer)?;
    for key in [10, 20] {
        s = nsert(out, s, &mut file, &mut buffer, key)?;
    }
    offered(out, s, &mut file, &buffer)
}

fn main(rt: HostRuntime) -> io::Result<()> {
    let mut file = [0u32; 54];
    extended(&rt, &mut file)?;
    reader(&rt, &file)?;
    out_of_order(&rt)?;
    taken_out(&rt, 10, None)?;
    taken_out(&rt, 30, None)?;
    taken_out(&rt, 10, Some((20, 40)))?;
    in_order(&rt)
}
