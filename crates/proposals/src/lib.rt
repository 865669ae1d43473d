// Makers of proposals in f64. What they make is fixed to the last bit, and nothing of it is trusted: the ordinary test vouches.
#![tactic(auto)]

pub mod areas;
mod product;
pub mod quotient;
pub mod reciprocal;
mod rounds;
pub mod types;
pub mod units;
mod values;
