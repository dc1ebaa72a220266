// Copies salvaged: one with each kind of damage, in both forms of the fresh file; one with a record that lacks room, whose other copies are reported as such;
// a good file that lacks room, and the same padded; a report that is too short.
#![tactic(auto)]

mod shown;

use drum::Description;
use shown::told;
use std::io;

fn description(wpb: usize, wpr: usize, control: usize, n: usize, form: usize) -> Description {
    Description::new()
        .with_wpb(wpb)
        .with_wpr(wpr)
        .with_k(1)
        .with_control(control)
        .with_n(n)
        .with_form(form)
}

// Every reason but 6: an index block, an out of order one, a second copy, a count above D, a word above 262143, a free block.
fn damaged(out: &impl Print, form: usize) -> io::Result<()> {
    let copy = [
        0, 0, 0, 0, 0, 0, 4098, 10, 2, 262143, 3, 0, 0, 0, 8194, 5, 7, 7, 10, 1, 2, 0, 8193,
        262143, 0, 0, 0, 0, 0, 0, 8194, 20, 3, 4, 10, 9, 9, 0, 8194, 10, 8, 8, 30, 1, 1, 4000000,
        8195, 1, 1, 1, 2, 2, 2, 0, 8193, 7, 300000, 0, 0, 0, 0, 0, 12288, 3, 0, 0, 0, 0, 0, 0,
    ];
    let mut fresh = [9u32; 70];
    let mut buffer = [7u32; 8];
    let mut report = [5u32; 72];
    let p = description(8, 3, 1, 8, form);
    let done = salvage::salvage(p, &copy, &mut fresh, &mut buffer, &mut report);
    told(out, "DAMAGED", done, &report, &fresh, &buffer)
}

// Key 4 lacks room in block 2, so its copy in block 3 lacks room too.
fn crowded(out: &impl Print) -> io::Result<()> {
    let copy = [
        0, 0, 0, 0, 0, 0, 8194, 3, 0, 5, 0, 0, 8194, 1, 0, 4, 0, 0, 8194, 4, 9, 262143, 0, 0,
    ];
    let mut fresh = [9u32; 24];
    let mut buffer = [7u32; 6];
    let mut report = [5u32; 27];
    let p = description(6, 2, 1, 3, 1);
    let done = salvage::salvage(p, &copy, &mut fresh, &mut buffer, &mut report);
    told(out, "CROWDED", done, &report, &fresh, &buffer)
}

// A good file of three detail blocks, filled by XTEND: its two last records lack room in one filled by NSERT.
fn good(out: &impl Print) -> io::Result<()> {
    let copy = [
        1, 0, 5, 262143, 1, 0, 4099, 3, 2, 6, 3, 262143, 4, 0, 8195, 1, 0, 2, 0, 3, 0, 0, 8195, 4,
        0, 5, 0, 6, 0, 0, 8195, 7, 0, 8, 0, 262143, 0, 0,
    ];
    let mut fresh = [9u32; 38];
    let mut buffer = [7u32; 8];
    let mut report = [5u32; 48];
    let p = description(8, 2, 1, 4, 1);
    let done = salvage::salvage(p, &copy, &mut fresh, &mut buffer, &mut report);
    told(out, "GOOD", done, &report, &fresh, &buffer)
}

// The same with a section and two blocks more: nothing lacks room.
fn padded(out: &impl Print) -> io::Result<()> {
    let mut copy = [0u32; 56];
    let words = [
        4099, 3, 2, 6, 3, 262143, 4, 0, 8195, 1, 0, 2, 0, 3, 0, 0, 8195, 4, 0, 5, 0, 6, 0, 0, 8195,
        7, 0, 8, 0, 262143, 0, 0,
    ];
    words::copy_words(&mut copy, 8, &words, 0, 32);
    let mut fresh = [9u32; 56];
    let mut buffer = [7u32; 8];
    let mut report = [5u32; 72];
    let p = description(8, 2, 2, 6, 1);
    let done = salvage::salvage(p, &copy, &mut fresh, &mut buffer, &mut report);
    told(out, "PADDED", done, &report, &fresh, &buffer)
}

// 020007, all unchanged: a report one word short.
fn short(out: &impl Print) -> io::Result<()> {
    let copy = [0u32; 24];
    let mut fresh = [9u32; 24];
    let mut buffer = [7u32; 6];
    let mut report = [5u32; 26];
    let p = description(6, 2, 1, 3, 1);
    let done = salvage::salvage(p, &copy, &mut fresh, &mut buffer, &mut report);
    told(out, "SHORT", done, &report, &fresh, &buffer)
}

fn main(rt: HostRuntime) -> io::Result<()> {
    damaged(&rt, 1)?;
    damaged(&rt, 2)?;
    crowded(&rt)?;
    good(&rt)?;
    padded(&rt)?;
    short(&rt)
}
