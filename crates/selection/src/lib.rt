// Two proposals for one quotient: both are tested, and the coefficients of the tighter one are given as a part of the caller's
// own numbers.
#![tactic(auto)]

pub mod proposal;
pub mod select;
mod types;
