// Files copied under another CONTROL: that of the fifteen calls, one whose master is made even, and one of 4,200 sections.
#![tactic(auto)]

mod even;
mod fifteen;
mod many;
mod shown;

use std::io;

fn main(rt: HostRuntime) -> io::Result<()> {
    fifteen::run(&rt)?;
    even::run(&rt)?;
    many::run(&rt)
}
