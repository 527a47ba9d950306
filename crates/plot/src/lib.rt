// What the app draws: numbers as doubles, and dots. Deviations are those of crate variances; noise types and bars are left to others.

#![tactic(auto)]

pub mod dots;
pub mod drawn;
