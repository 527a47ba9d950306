// Definitions and laws that every crate cites, and no code: sums over a range, lists, the greatest number that passes a test (specs/), and what
// is proved of them, of signed numbers and of halves (proofs/).

#![tactic(auto)]
