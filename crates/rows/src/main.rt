// Records in a row, played: lists put and read back, and places and words that no call would leave. Blocks have six words, one of them a leader word.
#![tactic(auto)]

use said::Row;
use std::io;

// A call and its words, the number that it answers, and the place in its row.
fn told(out: &impl Print, name: &str, work: &[u32], number: u64, row: &[u32; 7]) -> io::Result<()> {
    print!(out; "{name}{}: {:06o}", Row(work), number % 0o1000000)?;
    println!(out; "{}", Row(&row[4..6]))
}

fn put(out: &impl Print, row: &mut [u32; 7], file: &mut [u32], work: &[u32]) -> io::Result<()> {
    let number = rowcalls::put(row, file, work);
    told(out, "PUT", work, number, row)
}

fn get(out: &impl Print, row: &mut [u32; 7], file: &[u32], work: &mut [u32]) -> io::Result<()> {
    let number = rowcalls::get(row, file, work);
    told(out, "GET", work, number, row)
}

fn print_file(out: &impl Print, file: &[u32]) -> io::Result<()> {
    println!(out; "file{}", Row(file))
}

// Fixed records of two words.
fn fixed(out: &impl Print) -> io::Result<()> {
    let mut row = [6, 1, 0, 2, 0, 0, 0];
    let mut file = [9; 12];
    put(out, &mut row, &mut file, &[1, 2])?;
    put(out, &mut row, &mut file, &[0, 0])?;
    put(out, &mut row, &mut file, &[5, 6])?;
    put(out, &mut row, &mut file, &[7, 8])?;
    put(out, &mut row, &mut file, &[3, 3])?;
    print_file(out, &file)?;
    let mut back = [6, 1, 0, 2, 0, 0, 4];
    let mut work = [8; 2];
    for _ in 0..5 {
        get(out, &mut back, &file, &mut work)?;
    }
    Ok(())
}

fn read(out: &impl Print, row: &mut [u32; 7], file: &[u32]) -> io::Result<()> {
    let mut work = [8; 5];
    get(out, row, file, &mut work)
}

// The five variable records, and the end.
fn read_back(out: &impl Print, file: &[u32]) -> io::Result<()> {
    let mut row = [6, 1, 1, 0, 0, 0, 5];
    for _ in 0..6 {
        read(out, &mut row, file)?;
    }
    Ok(())
}

// Variable records.
fn variable(out: &impl Print) -> io::Result<()> {
    let mut row = [6, 1, 1, 0, 0, 0, 0];
    let mut file = [9; 12];
    put(out, &mut row, &mut file, &[2, 7, 9, 9, 9])?;
    print_file(out, &file)?;
    put(out, &mut row, &mut file, &[0, 1, 1, 1, 1])?;
    put(out, &mut row, &mut file, &[6, 1, 1, 1, 1])?;
    put(out, &mut row, &mut file, &[2, 0, 9, 9, 9])?;
    print_file(out, &file)?;
    put(out, &mut row, &mut file, &[1, 9, 9, 9, 9])?;
    put(out, &mut row, &mut file, &[4, 1, 2, 3, 9])?;
    print_file(out, &file)?;
    put(out, &mut row, &mut file, &[2, 5, 9, 9, 9])?;
    put(out, &mut row, &mut file, &[1, 5, 5, 5, 5])?;
    put(out, &mut row, &mut file, &[1, 5, 5, 5, 5])?;
    print_file(out, &file)?;
    read_back(out, &file)
}

// GET of a variable record at a place that nobody's calls left, with one left.
fn get_at(out: &impl Print, block: u32, at: u32, file: &[u32]) -> io::Result<()> {
    let mut row = [6, 1, 1, 0, block, at, 1];
    read(out, &mut row, file)
}

fn made_up(out: &impl Print) -> io::Result<()> {
    get_at(out, 0, 0, &[9, 0, 1, 1, 1, 1, 9, 1, 1, 1, 1, 1])?;
    get_at(out, 0, 0, &[9, 6, 1, 1, 1, 1, 9, 1, 1, 1, 1, 1])?;
    get_at(out, 0, 3, &[9, 3, 1, 1, 3, 1, 9, 1, 1, 1, 1, 1])?;
    get_at(out, 0, 3, &[9, 3, 1, 1, 0, 1, 9, 2, 7, 1, 1, 1])?;
    get_at(out, 0, 7, &[9, 3, 1, 1, 0, 1, 9, 2, 7, 1, 1, 1])?;
    get_at(out, 1, 5, &[1; 12])?;
    get_at(out, 2, 0, &[1; 12])?;
    get_at(out, 0, 0, &[1; 7])
}

fn main(rt: HostRuntime) -> io::Result<()> {
    fixed(&rt)?;
    variable(&rt)?;
    made_up(&rt)
}
