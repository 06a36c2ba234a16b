// The functions for C and Rust, as `include/umblacet.h` declares them: each is an entry of document 01 under the name
// that C calls it by, with the entry's contract, its answer as C takes it.
#![tactic(auto)]

pub mod answers;
pub mod boxes;
pub mod cuts;
pub mod faces;
pub mod intervals;
pub mod lines;
pub mod points;
pub mod rects;
pub mod stretches;
pub mod traces;
pub mod walks;
