// The library that an app links: a C function for each entry, under the names of include/ploegelster.h. Each calls one function of the crates below
// and has its contract, but for a channel's sample, which calls the meter's here. Only what C cannot hand over is told otherwise: a dot is a kind and
// a double, a noise type is its alpha.

#![tactic(auto)]

pub mod drawing;
pub mod files;
pub mod floats;
pub mod meters;
pub mod phases;
pub mod published;
pub mod sheets;
