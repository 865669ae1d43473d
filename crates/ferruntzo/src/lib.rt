// The library for C and Rust: the operations over lent areas. Each function takes every length of every area and every
// content; include/ferruntzo.h is their header.
#![tactic(auto)]

pub mod areas;
pub mod certificates;
pub mod conversions;
pub mod jobs;
pub mod makers;
pub mod operations;
pub mod selections;
pub mod version;
