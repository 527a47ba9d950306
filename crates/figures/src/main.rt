// Figures that the library works as it runs, a line each: the rules' that bear no star, numbers at the ends of what two halves hold, long
// records at many factors, streams fed to the running meter, float readings, buffers that are filled, and what the app draws. The second
// implementation, rust/independent/src/bin/figures, prints the same lines from its own working.

#![tactic(auto)]

mod bars;
mod buffers;
mod dots;
mod drawn;
mod floats;
mod halves;
mod print;
mod records;
mod refusals;
mod streams;
mod sweep;
mod types;

use shown::Output;
use std::io;

// A write that fails is not told, and the next is tried.
fn main(rt: HostRuntime) {
    let _ = figures(Output(rt.stdout()));
}

// All lines.
fn figures(out: Output) -> io::Result<()> {
    refusals::figures(out)?;
    halves::figures(out)?;
    sweep::figures(out)?;
    streams::figures(out)?;
    floats::figures(out)?;
    buffers::figures(out)?;
    drawn::figures(out)?;
    dots::figures(out)?;
    types::figures(out)?;
    bars::figures(out)
}
