// What the program says of itself.

// To standard error, where no file is named.
pub(crate) fn usage(rt: &HostRuntime) {
    let _ = rt
        .stderr()
        .write_all(b"usage: sheet FILE.. (sheet --help says more)\n");
}

// To standard output.
pub(crate) fn help(rt: &HostRuntime) {
    let _ = rt.stdout().write_all(
        b"usage: sheet FILE..

Reads record files of at most 4,096 samples, or 4,095 frequency readings, and writes a
sheet of all factors to standard output: for each file a line for each of the factors
1, 2, 4, 8 and so on, as far as the record allows, then one closing line.

  M A/B K R T/U C S ALPHA
  refused N at PLACE
  total K C

M is the factor, A/B the Allan variance, K how many squares are in it, R the Allan
deviation; T/U is the time variance, C how many squares are in it, S the time
deviation. A deviation is a whole number of units of 2^-20 ps, cut off, the Allan one
per basic interval. ALPHA is the noise type. T/U, C and S each read r1 where there are
fewer than 3M samples; ALPHA reads - where there are fewer than 6M, and r8 where S is
0. A frequency record is turned into phase first, from its starting phase.

A file that is refused as a whole has one line: N is 9 for bad bytes or a bad length, at
the byte; 2 for too many values; 3 for a value outside its range or a phase that leaves
it, at its index, and for a starting phase outside its range, at 0; 1 for fewer than
three samples.

The closing line adds up K and C over all lines of all files.

A file that cannot be opened or read has the line refused 9 at 0, and standard error
says why. A program cannot set an exit status today, so that it is 0 in every case: look
for the word refused, and at standard error. A file whose name is --help is read as
./--help.
",
    );
}
