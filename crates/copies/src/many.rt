// 4,200 sections made by XTEND, copied to CONTROL 16383; the copy opened, and the last key found there.
use drum::Description;
use said::told;
use searchfile::Session;
use std::io;

fn description() -> Description {
    Description::new()
        .with_wpb(6)
        .with_wpr(1)
        .with_k(1)
        .with_control(5000)
        .with_n(20000)
}

// XTEND of 1, 2, 3 and so on; prints the sum of the transfers, and that of the numbers, which is 0 where each of them answered 0.
fn ascending(
    out: &impl Print,
    start: Session,
    file: &mut [u32],
    buffer: &mut [u32],
) -> io::Result<Session> {
    let mut s = start;
    let mut numbers = 0u64;
    let mut transfers = 0u64;
    for key in 1u32..41991 {
        let work = [key];
        let answer = s.xtend(file, buffer, &work);
        numbers = numbers.wrapping_add(u64::from(answer.number));
        transfers = transfers.wrapping_add(answer.transfers as u64);
        s = answer.session;
    }
    println!(out; "XTEND 1 to 41990, numbers and transfers {numbers} {transfers}")?;
    Ok(s)
}

// 4095 is below the sections in use.
fn too_few(out: &impl Print, s: Session, file: &[u32]) -> io::Result<()> {
    let mut second = [9u32; 128194];
    let mut marks = [9u8; 20000];
    told(
        out,
        "COPY 4095",
        &[],
        s.copy_file(file, &mut second, 4095, &mut marks),
    )?;
    Ok(())
}

// The copy opened, and the last key sought there.
fn used(out: &impl Print, second: &mut [u32; 152770]) -> io::Result<()> {
    let mut buffer = [0u32; 6];
    let mut work = [41990u32];
    let mut marks = [9u8; 20000];
    let begun = Session::new(description().with_control(16383));
    let opened = told(
        out,
        "OPEN",
        &[],
        begun.open_file(second, &buffer, &mut marks),
    )?;
    told(
        out,
        "SEEK 41990",
        &[],
        opened.seek(second, &mut buffer, &mut work),
    )?;
    Ok(())
}

fn enough(out: &impl Print, s: Session, file: &[u32]) -> io::Result<()> {
    let mut second = [9u32; 152770];
    let mut marks = [9u8; 20000];
    told(
        out,
        "COPY 16383",
        &[],
        s.copy_file(file, &mut second, 16383, &mut marks),
    )?;
    used(out, &mut second)
}

// Made and opened here, as in each such program: one function in `said` would have to promise again what `create` and `open_file` promise.
pub fn run(out: &impl Print) -> io::Result<()> {
    let mut file = [0u32; 130004];
    let mut buffer = [0u32; 6];
    let mut marks = [9u8; 20000];
    let begun = told(
        out,
        "CREATE",
        &[],
        Session::new(description()).create(&mut file),
    )?;
    let opened = told(
        out,
        "OPEN",
        &[],
        begun.open_file(&file, &buffer, &mut marks),
    )?;
    let filled = ascending(out, opened, &mut file, &mut buffer)?;
    let s = told(out, "CLOSE", &[], filled.close(&mut file, &buffer))?;
    println!(out; "sections {}", file[0])?;
    too_few(out, s, &file)?;
    enough(out, s, &file)
}
