// The quotient test and the root tests: a posteriori validation of proposed candidates over a lent scratch.
#![tactic(auto)]

mod numbers;
pub mod quotient;
mod residual;
pub mod root;
mod root_end;
pub mod scratch;
pub mod types;
