// Figures that NIST Technical Note 1337 prints, worked again by the library: its worked example of the Allan variance and its example of an error
// bar. A line has the library's figure, the printed one, and whether they agree. A second implementation, tests/printed.py, works every line out
// again.

#![tactic(auto)]

mod allan;
mod bar;
mod print;
mod rounding;

use shown::Output;
use std::io;

// A write that fails is not told, and the next is tried.
fn main(rt: HostRuntime) {
    let _ = figures(Output(rt.stdout()));
}

// All lines.
fn figures(out: Output) -> io::Result<()> {
    allan::figures(out)?;
    bar::figures(out)
}
