// Models from power series Σ p_k·x^k.
#![tactic(auto)]

pub mod convert;
pub mod table;
pub mod types;
