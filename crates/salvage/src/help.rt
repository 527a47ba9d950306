// What the program says of itself.

// To standard error, where no file is named or more than one.
pub(crate) fn usage(rt: &HostRuntime) {
    let _ = rt.stderr().write_all(b"usage: salvage FILE >MENDED (salvage --help says more)\n");
}

// To standard output.
pub(crate) fn help(rt: &HostRuntime) {
    let _ = rt.stdout().write_all(
        b"usage: salvage FILE >MENDED

Reads a damaged record file and writes the proper file that can still be had of it to
standard output: of the same version, kind and starting phase, with the values before
the first that is cut off or outside its range. A sound file comes back as it is. Let
MENDED be another file than FILE: the shell empties it first.

Then it writes a line to standard error:

  kept N of O values, L bytes left over
  kept N of O values, L bytes left over, a value out of range was met

O is the count that FILE says. L is the length of FILE, however long it is, less that of
MENDED.

If no file can be had, nothing is written to standard output, and the line is the word
refused, the refusal's number, what it means and its place, counted from 0:

  refused 9, bad bytes or a bad length in a file, at place 5
  refused 2, too many samples, readings, counts or intervals, at place 0
  refused 3, a value outside its range, at place 0

9 is for the header, at the byte that is wrong or where the header is cut off; 2 is for
the count that FILE says, and 3 for its starting phase.

If FILE cannot be opened or read, nothing is written to standard output either, and
standard error says why, as it does if MENDED cannot be written. A program cannot set an
exit status today, so that it is 0 in every case: look for the word kept on standard
error.
",
    );
}
