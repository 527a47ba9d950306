// Records of 32,768 samples, each by a rule that a second implementation can follow.
ghost use Rattle.std.specs.Prelude.{◌<◌};

use shown::{centred, next};

// The rules.
#[derive(Clone, Copy)]
pub(crate) enum Rule {
    Ends,
    Blocks,
    Squares,
    Scattered,
    Line,
}

// All rules, each with its name.
pub(crate) const RULES: [(&str, Rule); 5] = [
    ("ends", Rule::Ends),
    ("blocks", Rule::Blocks),
    ("squares", Rule::Squares),
    ("scattered", Rule::Scattered),
    ("line", Rule::Line),
];

// Fills a record by a rule.
pub(crate) fn fill(samples: &mut [i64; 32768], rule: Rule) {
    let mut state: u64 = 1;
    for (i, sample) in samples.iter_mut().enumerate() {
        state = next(state);
        *sample = at(rule, (i % 32768) as u64, state);
    }
}

// Sample i of a rule.
fn at(rule: Rule, i: u64, state: u64) -> i64
    requires { i < 32768 }
{
    match rule {
        Rule::Ends => by_turns(i),
        Rule::Blocks => by_turns(i / 10922),
        Rule::Squares => (i * i) as i64,
        Rule::Scattered => centred(state / 8388608),
        Rule::Line => centred(33554431 * i + 549755813888),
    }
}

// Either end of the range: with blocks of 10,922 samples this makes the largest window sum there is.
fn by_turns(turn: u64) -> i64 {
    if turn % 2 == 0 {
        1099511627776
    } else {
        -1099511627776
    }
}
