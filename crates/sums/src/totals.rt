// The sums over a record that was checked: second differences, the window that slides over them, and the totals of their squares. How squares are added up
// in words is left to squares, and how a block of windows is to blocks.
ghost use Rattle.std.specs.Prelude.{◌≡◌, ◌+◌, ◌*◌, ◌^◌, ◌≤◌, ◌<◌, length, ◌-ℤ◌};
ghost use Rattle.laws.specs.Sums.{sum, square};
ghost use Rattle.laws.specs.Lists.{tabulate};
ghost use Rattle.laws.proofs.Squares.{raised};
ghost use Rattle.wide.specs.Wide.{halves};
ghost use Rattle.record.specs.Refusals.{none, record_refusal};
ghost use Rattle.sums.specs.Published.{allan_count, allan_sum, modified_sum, window_sum};
ghost use Rattle.sums.specs.Published.{difference as d};
ghost use Rattle.sums.specs.Answers.{allan_demand};

use crate::blocks::BLOCK;
use crate::squares::Parts;
use crate::{blocks, squares};
use wide::Wide;

// A second difference lies within this many picoseconds either way: 2^42.
const LARGEST_DIFFERENCE: i64 = 4398046511104;

// A record that the Allan sum does not refuse at factor m. The modified sum asks for 3m samples besides.
#[derive(Clone, Copy)]
pub(crate) struct Record<'a> {
    pub samples: &'a [i64],
    pub m: usize,
    ghost unrefused: { record_refusal allan_demand m samples.now ≡ none },
}

// The squares of S_0 to S_j, and S_j.
#[derive(Clone, Copy)]
struct Windows {
    pub j: usize,
    pub window: i64,
    pub total: Wide,
}

impl<'a> Record<'a> {
    // The Allan sum A, from the squares of raised second differences.
    pub(crate) fn allan_total(&self) -> Wide
        ensures { result ≡ halves (allan_sum self.now.m self.now.samples.now) }
    {
        let parts = self.allan_parts();
        let count = self.samples.len() - 2 * self.m;
        squares::lowered(squares::joined(parts), parts.raised, 1, count as u64)
    }

    // The modified sum B. One turn costs the same whatever m is: the window slides.
    pub(crate) fn modified_total(&self) -> Wide
        requires { 3 * self.now.m ≤ length self.now.samples.now }
        ensures { result ≡ halves (modified_sum self.now.m self.now.samples.now) }
    {
        let blocks = self.whole_blocks();
        let mut window = blocks.window;
        let mut total = blocks.total;
        for j in blocks.j..self.samples.len() - 3 * self.m {
            window = self.slid(j, window);
            total = wide::with_square(total, window);
        }
        total
    }

    // As many windows as whole blocks have.
    fn whole_blocks(&self) -> Windows
        requires { 3 * self.now.m ≤ length self.now.samples.now }
        ensures { (result.j + 3 * self.now.m ≤ length self.now.samples.now) × (result.window ≡ window_sum self.now.m self.now.samples.now result.j) × (result.total ≡ halves (sum (result.j + 1) (λ j. square (window_sum self.now.m self.now.samples.now j)))) }
    {
        let mut window = self.first_window();
        let mut total = wide::with_square(Wide { hi: 0, lo: 0 }, window);
        let mut gains = [0i64; BLOCK];
        let count = (self.samples.len() - 3 * self.m) / BLOCK;
        for b in 0..count {
            self.write_gains(BLOCK * b, &mut gains);
            let block = blocks::windows(&gains, self.m as u64, window);
            window = block.window;
            total = wide::sum(total, block.squares);
        }
        Windows {
            j: BLOCK * count,
            window,
            total,
        }
    }

    // What the window gains at each place of a block, written first by itself: a machine works several at a time.
    fn write_gains(&self, j: usize, gains: &mut [i64; BLOCK])
        requires { (j + 128 + 3 * self.now.m ≤ length self.now.samples.now) × (length gains.old ≡ 128) }
        ensures { gains.new ≡ tabulate 128 (λ k. d self.now.m self.now.samples.now (j + k + self.now.m) -ℤ d self.now.m self.now.samples.now (j + k)) }
    {
        for (k, place) in gains.iter_mut().enumerate() {
            *place = self.gain(j + k);
        }
    }

    // What the window gains as it moves on from j: d_(j+m) - d_j, a third difference of the samples.
    fn gain(&self, j: usize) -> i64
        requires { j + 3 * self.now.m < length self.now.samples.now }
        ensures { result ≡ d self.now.m self.now.samples.now (j + self.now.m) -ℤ d self.now.m self.now.samples.now j }
    {
        let samples = self.samples;
        let m = self.m;
        samples[j + 3 * m] - 3 * samples[j + 2 * m] + 3 * samples[j + m] - samples[j]
    }

    // The sums by parts over all second differences, each raised by 2^42.
    fn allan_parts(&self) -> Parts
        ensures { (result.high * 2 ^ 44 + result.cross * 2 ^ 23 + result.low ≡ sum (allan_count self.now.m self.now.samples.now) (λ i. raised (2 ^ 42) (d self.now.m self.now.samples.now i) * raised (2 ^ 42) (d self.now.m self.now.samples.now i))) × (result.raised ≡ sum (allan_count self.now.m self.now.samples.now) (λ i. raised (2 ^ 42) (d self.now.m self.now.samples.now i))) }
    {
        let mut parts = Parts {
            high: 0,
            cross: 0,
            low: 0,
            raised: 0,
        };
        for i in 0..self.samples.len() - 2 * self.m {
            parts = squares::with_number(parts, self.raised_difference(i));
        }
        parts
    }

    // The second difference d_i, raised by 2^42 so that it is not below nought.
    fn raised_difference(&self, i: usize) -> u64
        requires { i + 2 * self.now.m < length self.now.samples.now }
        ensures { (result ≡ raised (2 ^ 42) (d self.now.m self.now.samples.now i)) × (result ≤ 2 ^ 43) }
    {
        (self.difference(i) + LARGEST_DIFFERENCE) as u64
    }

    // S_0, the sum of the first m second differences.
    fn first_window(&self) -> i64
        requires { 3 * self.now.m ≤ length self.now.samples.now }
        ensures { result ≡ window_sum self.now.m self.now.samples.now 0 }
    {
        let mut window: i64 = 0;
        for i in 0..self.m {
            window += self.difference(i);
        }
        window
    }

    // S_(j+1) from S_j.
    fn slid(&self, j: usize, window: i64) -> i64
        requires { (j + 3 * self.now.m < length self.now.samples.now) × (window ≡ window_sum self.now.m self.now.samples.now j) }
        ensures { result ≡ window_sum self.now.m self.now.samples.now (j + 1) }
    {
        window + self.gain(j)
    }

    // The second difference d_i.
    fn difference(&self, i: usize) -> i64
        requires { i + 2 * self.now.m < length self.now.samples.now }
        ensures { result ≡ d self.now.m self.now.samples.now i }
    {
        let samples = self.samples;
        let m = self.m;
        samples[i + 2 * m] - 2 * samples[i + m] + samples[i]
    }
}
