// The archive that an app links: a C function for each entry, under the names of include/ploegelster.h. Each calls the function of the library
// ploegelster that has its name, and has its contract.

#![tactic(auto)]

mod drawing;
mod files;
mod floats;
mod meters;
mod phases;
mod published;
mod sheets;
