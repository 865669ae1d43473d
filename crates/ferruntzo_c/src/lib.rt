// The library for C and Rust, as a static library: each function of include/ferruntzo.h calls that of the same name in crate
// `ferruntzo`, with the same clauses. Kept: the symbols of a static library come from a crate that holds nothing else.
#![tactic(auto)]

pub mod certificates;
pub mod conversions;
pub mod jobs;
pub mod makers;
pub mod operations;
pub mod selections;
pub mod version;
