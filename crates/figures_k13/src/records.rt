// A record of 32,768 samples by a rule that a second implementation can follow.

use shown::{centred, next};

// Fills a record with samples that scatter over the whole range.
pub(crate) fn scattered(samples: &mut [i64; 32768]) {
    let mut state: u64 = 1;
    for sample in samples {
        state = next(state);
        *sample = centred(state / 8388608);
    }
}
