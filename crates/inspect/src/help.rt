// What the program says of itself.

// To standard error, where no file is named.
pub(crate) fn usage(rt: &HostRuntime) {
    let _ = rt
        .stderr()
        .write_all(b"usage: inspect FILE.. (inspect --help says more)\n");
}

// To standard output.
pub(crate) fn help(rt: &HostRuntime) {
    let _ = rt.stdout().write_all(
        b"usage: inspect FILE..

Reads record files and writes a line for each, in one piece, to standard output:

  NAME: version 1, phase, N values; FIGURES
  NAME: version 1, frequency, N values; FIGURES of the phases that the readings add up to
  NAME: version 2, phase, N values; FIGURES
  NAME: version 2, frequency from S, N values; FIGURES of the phases that begin at S
  NAME: REFUSAL

FIGURES are, with a REFUSAL in the place of each that there is not:

  factor 1: Allan sum A of K, deviation R (D ps);
  factor 2: modified sum B of C, time deviation R (D ps)

A and B are sums of so many squares, in square picoseconds. R is a whole number of
units of 2^-20 ps, cut off; D is the same in ps, cut off after six decimals. The
Allan deviation is per basic interval.

A REFUSAL is the word refused, its number, what it means and, where one value or one
byte of the file is at fault, its place, counted from 0:

  refused 3, a value outside its range, at index 1
  refused 9, bad bytes or a bad length in a file, at byte 55

A starting phase S outside its range is a value at index 0 too.

A file that cannot be opened or read has no line; standard error says why. A control
character in a name is shown as ?. A program cannot set an exit status today, so that
it is 0 in every case: look for the word refused, and at standard error.
",
    );
}
