// Figures of what is being added, a line each: the quieter of two records, and sixteen channels of a bank. They join the program figures.

#![tactic(auto)]

mod bank;
mod quieter;
mod records;

use shown::Output;
use std::io;

// A write that fails is not told, and the next is tried.
fn main(rt: HostRuntime) {
    let _ = figures(Output(rt.stdout()));
}

// All lines.
fn figures(out: Output) -> io::Result<()> {
    quieter::figures(out)?;
    bank::figures(out)
}
