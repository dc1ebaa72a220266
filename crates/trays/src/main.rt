// Trays played: a file of four blocks filled by one call, trays that are stopped or refused, and trays on a closed session.
// File and buffer stay two parameters, the calls functions of each program: a struct of lent words, as in `plays`, is longer than what it spares here.
#![tactic(auto)]

mod shown;

use drum::Description;
use said::told;
use searchfile::Session;
use shown::{show, told_tray};
use std::io;

fn put_in(
    out: &impl Print,
    s: Session,
    file: &mut [u32; 40],
    buffer: &mut [u32; 8],
    words: &[u32],
) -> io::Result<Session> {
    told_tray(out, words, tray::nsert_tray(s, file, buffer, words))
}

fn dlete(
    out: &impl Print,
    s: Session,
    file: &mut [u32; 40],
    buffer: &mut [u32; 8],
    key: u32,
) -> io::Result<Session> {
    let work = [key, 0, 0];
    told(out, "DLETE", &[], s.dlete(file, buffer, &work))
}

// The last of the first four takes the last block; then there is no room.
fn filled(
    out: &impl Print,
    start: Session,
    file: &mut [u32; 40],
    buffer: &mut [u32; 8],
) -> io::Result<Session> {
    let first = [4, 10, 1, 2, 20, 3, 4, 5, 7, 7, 15, 6, 6];
    let full = put_in(out, start, file, buffer, &first)?;
    show(out, full, file, buffer)?;
    let s = put_in(out, full, file, buffer, &[3, 12, 0, 0, 13, 0, 0, 14, 0, 0])?;
    show(out, s, file, buffer)?;
    Ok(s)
}

// Trays that store nothing.
fn stopped(
    out: &impl Print,
    start: Session,
    file: &mut [u32; 40],
    buffer: &mut [u32; 8],
) -> io::Result<Session> {
    let mut s = put_in(out, start, file, buffer, &[0])?;
    s = put_in(out, s, file, buffer, &[1, 20, 9, 9])?;
    s = put_in(out, s, file, buffer, &[1, 262143, 0, 0])?;
    s = put_in(out, s, file, buffer, &[2, 1, 2, 3])?;
    put_in(out, s, file, buffer, &[])
}

// Two records are taken out, and the second of three is refused: the first stays, the third is not tried.
fn again(
    out: &impl Print,
    start: Session,
    file: &mut [u32; 40],
    buffer: &mut [u32; 8],
) -> io::Result<Session> {
    let mut s = dlete(out, start, file, buffer, 5)?;
    s = dlete(out, s, file, buffer, 10)?;
    s = put_in(
        out,
        s,
        file,
        buffer,
        &[3, 30, 0, 0, 40, 262144, 0, 50, 0, 0],
    )?;
    show(out, s, file, buffer)?;
    Ok(s)
}

fn closed(
    out: &impl Print,
    start: Session,
    file: &mut [u32; 40],
    buffer: &mut [u32; 8],
) -> io::Result<()> {
    let mut s = told(out, "CLOSE", &[], start.close(file, buffer))?;
    s = put_in(out, s, file, buffer, &[0])?;
    s = put_in(out, s, file, buffer, &[1, 1, 1, 1])?;
    put_in(out, s, file, buffer, &[1])?;
    Ok(())
}

fn description() -> Description {
    Description::new()
        .with_wpb(8)
        .with_wpr(3)
        .with_k(1)
        .with_control(2)
        .with_n(4)
}

// Made and opened here, as in each such program: one function in `said` would have to promise again what `create` and `open_file` promise.
fn main(rt: HostRuntime) -> io::Result<()> {
    let mut file = [0u32; 40];
    let mut buffer = [0u32; 8];
    let mut marks = [9u8; 4];
    let begun = told(
        &rt,
        "CREATE",
        &[],
        Session::new(description()).create(&mut file),
    )?;
    let opened = told(
        &rt,
        "OPEN",
        &[],
        begun.open_file(&file, &buffer, &mut marks),
    )?;
    let full = filled(&rt, opened, &mut file, &mut buffer)?;
    let same = stopped(&rt, full, &mut file, &mut buffer)?;
    let last = again(&rt, same, &mut file, &mut buffer)?;
    closed(&rt, last, &mut file, &mut buffer)
}
