// What the customer opens first, and no code: what is promised and when a call is refused (specs/), and the three conditions proved of the functions' own
// contracts (proofs/Condition1 to Condition3, proofs/Grounds, proofs/Figures).

#![tactic(auto)]
